// A session by the bytes with which it starts (document 02): opened from them, and the byte of a maximum RU.
ghost use Rattle.std.specs.Prelude.{◌≡◌};
ghost use Rattle.lu62.specs.Handing.{handed};
ghost use Rattle.lu62.specs.Exported.{session_bytes, opened_by_bytes_on, size_byte_out};

use crate::handing::hand_opened;
use bind::size_byte;
use session::bind_opening::{SessionBytes, open_bind_session};

// Opens a session as `lu62_open` does, by a window byte and a size byte for each direction in place of the numbers.
#[unsafe(no_mangle)]
pub extern "C" fn lu62_open_bind(
    role: u8,
    out_window: u8,
    in_window: u8,
    out_size: u8,
    in_size: u8,
    send_length: usize,
    unit_length: usize,
    inbox_length: usize,
    image: &mut [u8],
    answer: &mut [u32; 9],
) -> u32
    ensures { handed result answer.new image.new
        ≡ opened_by_bytes_on (session_bytes role out_window in_window out_size in_size) send_length unit_length inbox_length image.old }
{
    let bytes = SessionBytes {
        role,
        outwindow: out_window,
        inwindow: in_window,
        outsize: out_size,
        insize: in_size,
    };
    hand_opened(
        open_bind_session(bytes, send_length, unit_length, inbox_length),
        image,
        answer,
    )
}

// The size byte of a maximum RU, 0 where it has none. The value returned is the refusal number, 0 if there is a byte.
#[unsafe(no_mangle)]
pub extern "C" fn lu62_size_byte(max: u32, byte: &mut u8) -> u32
    ensures { (result, byte.new) ≡ size_byte_out max }
{
    let found = size_byte(max);
    let answer = found.answer;
    *byte = found.byte;
    answer.refusal as u32
}
