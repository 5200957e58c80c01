// The byte for a flag and for each value of an enum, and back. A byte past the last code is read as the last: an image that has
// one is refused before. They are functions, and no `From`, since the codes are those of an image, and each byte has a flag or value here.
ghost use Rattle.std.specs.Prelude.{◌≡◌};
ghost use Rattle.control.specs.StateTests.{role_number, state_number, mark_number};
ghost use Rattle.image.specs.Codes.{state_of, follows_number, follows_of, mark_of};
ghost use Rattle.image.specs.ImageParts.{flag_byte};

use control::{Role, State, WhatReceived};
use header::Follows;

// 1 if it is on.
pub fn flag_code(on: bool) -> u8
    ensures { result ≡ flag_byte on }
{
    on as u8
}

pub fn role_code(role: Role) -> u8
    ensures { result ≡ role_number role }
{
    role as u8
}

pub fn state_code(state: State) -> u8
    ensures { result ≡ state_number state }
{
    state as u8
}

pub fn state_of(code: u8) -> State
    ensures { result ≡ state_of code }
{
    match code {
        0 => State::Reset,
        1 => State::Send,
        2 => State::Receive,
        3 => State::ConfirmOwed,
        4 => State::ConfirmAwaited,
        5 => State::DeferTurn,
        _ => State::DeferEnd,
    }
}

pub fn follows_code(follows: Follows) -> u8
    ensures { result ≡ follows_number follows }
{
    follows as u8
}

pub fn follows_of(code: u8) -> Follows
    ensures { result ≡ follows_of code }
{
    match code {
        0 => Follows::Stay,
        1 => Follows::ChangeDirection,
        _ => Follows::EndBracket,
    }
}

// The numbers of the marks: document 01's, from none 0 to confirm-end 5, and document 02's error 6.
pub fn mark_code(mark: WhatReceived) -> u8
    ensures { result ≡ mark_number mark }
{
    mark as u8
}

pub fn mark_of(code: u8) -> WhatReceived
    ensures { result ≡ mark_of code }
{
    match code {
        0 => WhatReceived::Nothing,
        1 => WhatReceived::Turn,
        2 => WhatReceived::End,
        3 => WhatReceived::Confirm,
        4 => WhatReceived::ConfirmTurn,
        5 => WhatReceived::ConfirmEnd,
        _ => WhatReceived::Error,
    }
}
