// What is asked before a session is opened.
ghost use Rattle.std.specs.Prelude.{◌≡◌, ◌*◌};
ghost use Rattle.answers.specs.Refusals.{outcome_number};
ghost use Rattle.session.specs.OpeningQuestions.{buffers_good, opening_refusal};

use crate::Session;
use answers::questions::ask;
use answers::refusals::Refusal;
use pacing::size_good;
use unit::RU_START;
use unit::maximum::max_good;

// The record keeps the inbox's length in 16 bits.
const GREATEST_INBOX: usize = 65535;

// Room for a window of requests, each as long as it may be. Asked also of sizes that are refused, it fits all the same.
fn window_room(window: u8, max: u32) -> usize
    ensures { result ≡ window * max }
{
    (window as usize) * (max as usize)
}

fn buffers_good(s: Session, send: usize, unit: usize, inbox: usize) -> bool
    ensures { result ≡ buffers_good s send unit inbox }
{
    let max = s.outmax as usize;
    (max <= send)
        & ((max + RU_START <= unit)
            & ((window_room(s.inwindow, s.inmax) <= inbox) & (inbox <= GREATEST_INBOX)))
}

#[tactic(auto, unfolding(crate::specs::OpeningQuestions::opening_refusal))]
pub fn opening_refusal(s: Session, send: usize, unit: usize, inbox: usize) -> Result<(), Refusal>
    ensures { outcome_number result ≡ opening_refusal s send unit inbox }
{
    ask((s.role == 0) | (s.role == 1), Refusal::BadRole)?;
    ask(
        size_good(s.outwindow) & size_good(s.inwindow),
        Refusal::BadWindow,
    )?;
    ask(max_good(s.outmax) & max_good(s.inmax), Refusal::BadMaximum)?;
    ask(buffers_good(s, send, unit, inbox), Refusal::BadBuffer)
}
