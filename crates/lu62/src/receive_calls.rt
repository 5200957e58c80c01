// Units taken, and bytes and marks read.
ghost use Rattle.std.specs.Prelude.{◌≡◌};
ghost use Rattle.lu62.specs.Handing.{handed, left};
ghost use Rattle.lu62.specs.Exported.{receive_unit_on, receive_on};

use crate::handing::{hand_out, refuse_image};
use image::decoding::read_image;

// Takes one unit from the partner (document 01: take). The answer to a bid is the unit made.
#[unsafe(no_mangle)]
pub extern "C" fn lu62_receive_unit(
    image: &mut [u8],
    taken: &[u8],
    inbox: &mut [u8],
    unit: &mut [u8],
    answer: &mut [u32; 9],
) -> u32
    ensures { left (handed result answer.new image.new) (inbox.new, unit.new)
        ≡ receive_unit_on taken.now image.old inbox.old unit.old }
{
    match read_image(image) {
        Ok(end) => hand_out(end.receive_unit(taken, inbox, unit), image, answer),
        Err(why) => refuse_image(why.into(), answer),
    }
}

// Reads what was received: bytes of the current record, as many as the buffer takes, or the mark (document 01: read).
#[unsafe(no_mangle)]
pub extern "C" fn lu62_receive(
    image: &mut [u8],
    inbox: &mut [u8],
    buffer: &mut [u8],
    answer: &mut [u32; 9],
) -> u32
    ensures { left (handed result answer.new image.new) (inbox.new, buffer.new)
        ≡ receive_on image.old inbox.old buffer.old }
{
    match read_image(image) {
        Ok(end) => hand_out(end.receive(inbox, buffer), image, answer),
        Err(why) => refuse_image(why.into(), answer),
    }
}
