// The calls that send the last unit of a chain.
ghost use Rattle.std.specs.Prelude.{◌≡◌, not, eqb};
ghost use Rattle.lu62.specs.Handing.{handed, left};
ghost use Rattle.lu62.specs.Exported.{close_on, flush_on, confirm_on, prepare_to_receive_on, deallocate_on};

use crate::handing::{hand_out, refuse_image};
use header::Follows;
use image::decoding::read_image;

// The closing call on an image, of which the four below are names.
fn close_on(
    image: &mut [u8],
    follows: Follows,
    confirm: bool,
    send: &[u8],
    unit: &mut [u8],
    answer: &mut [u32; 9],
) -> u32
    ensures { left (handed result answer.new image.new) unit.new
        ≡ close_on follows confirm send.now image.old unit.old }
{
    match read_image(image) {
        Ok(end) => hand_out(end.close(follows, confirm, send, unit), image, answer),
        Err(why) => refuse_image(why.into(), answer),
    }
}

// Sends the bytes held, if there are any. A turn or an end that is prepared is carried out, without confirmation. While an error is
// due it makes the error header.
#[unsafe(no_mangle)]
pub extern "C" fn lu62_flush(
    image: &mut [u8],
    send: &[u8],
    unit: &mut [u8],
    answer: &mut [u32; 9],
) -> u32
    ensures { left (handed result answer.new image.new) unit.new
        ≡ flush_on send.now image.old unit.old }
{
    close_on(image, Follows::Stay, false, send, unit, answer)
}

// Sends the bytes held and asks for a confirmation. A turn or an end that is prepared is carried out with it.
#[unsafe(no_mangle)]
pub extern "C" fn lu62_confirm(
    image: &mut [u8],
    send: &[u8],
    unit: &mut [u8],
    answer: &mut [u32; 9],
) -> u32
    ensures { left (handed result answer.new image.new) unit.new
        ≡ confirm_on send.now image.old unit.old }
{
    close_on(image, Follows::Stay, true, send, unit, answer)
}

// Sends the bytes held and gives the partner the turn (document 01: turn), with confirmation where `confirm`
// is not 0.
#[unsafe(no_mangle)]
pub extern "C" fn lu62_prepare_to_receive(
    image: &mut [u8],
    confirm: u8,
    send: &[u8],
    unit: &mut [u8],
    answer: &mut [u32; 9],
) -> u32
    ensures { left (handed result answer.new image.new) unit.new
        ≡ prepare_to_receive_on (not (eqb confirm 0)) send.now image.old unit.old }
{
    close_on(
        image,
        Follows::ChangeDirection,
        confirm != 0,
        send,
        unit,
        answer,
    )
}

// Sends the bytes held and ends the conversation (document 01: end), with confirmation where `confirm` is not
// 0.
#[unsafe(no_mangle)]
pub extern "C" fn lu62_deallocate(
    image: &mut [u8],
    confirm: u8,
    send: &[u8],
    unit: &mut [u8],
    answer: &mut [u32; 9],
) -> u32
    ensures { left (handed result answer.new image.new) unit.new
        ≡ deallocate_on (not (eqb confirm 0)) send.now image.old unit.old }
{
    close_on(image, Follows::EndBracket, confirm != 0, send, unit, answer)
}
