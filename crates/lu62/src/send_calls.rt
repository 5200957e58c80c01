// Bytes given, confirmations made or refused, and pacing responses made.
ghost use Rattle.std.specs.Prelude.{◌≡◌};
ghost use Rattle.lu62.specs.Handing.{handed, left};
ghost use Rattle.lu62.specs.Exported.{send_data_on, confirmed_on, send_error_on, send_pacing_response_on};

use crate::handing::{hand_out, refuse_image};
use image::decoding::read_image;

// Gives bytes to the conversation. They are kept in the send buffer until more than M are held; then one unit goes.
#[unsafe(no_mangle)]
pub extern "C" fn lu62_send_data(
    image: &mut [u8],
    bytes: &[u8],
    send: &mut [u8],
    unit: &mut [u8],
    answer: &mut [u32; 9],
) -> u32
    ensures { left (handed result answer.new image.new) (send.new, unit.new)
        ≡ send_data_on bytes.now image.old send.old unit.old }
{
    match read_image(image) {
        Ok(end) => hand_out(end.send_data(bytes, send, unit), image, answer),
        Err(why) => refuse_image(why.into(), answer),
    }
}

// Makes the confirmation that is owed.
#[unsafe(no_mangle)]
pub extern "C" fn lu62_confirmed(image: &mut [u8], unit: &mut [u8], answer: &mut [u32; 9]) -> u32
    ensures { left (handed result answer.new image.new) unit.new ≡ confirmed_on image.old unit.old }
{
    match read_image(image) {
        Ok(end) => hand_out(end.confirmed(unit), image, answer),
        Err(why) => refuse_image(why.into(), answer),
    }
}

// Refuses the confirmation that is owed (document 02: no confirmation, with a cause). `lu62_flush` then makes the error header.
#[unsafe(no_mangle)]
pub extern "C" fn lu62_send_error(image: &mut [u8], unit: &mut [u8], answer: &mut [u32; 9]) -> u32
    ensures { left (handed result answer.new image.new) unit.new ≡ send_error_on image.old unit.old }
{
    match read_image(image) {
        Ok(end) => hand_out(end.send_error(unit), image, answer),
        Err(why) => refuse_image(why.into(), answer),
    }
}

// Makes the pacing response that is owed (document 01: pace).
#[unsafe(no_mangle)]
pub extern "C" fn lu62_send_pacing_response(
    image: &mut [u8],
    unit: &mut [u8],
    answer: &mut [u32; 9],
) -> u32
    ensures { left (handed result answer.new image.new) unit.new
        ≡ send_pacing_response_on image.old unit.old }
{
    match read_image(image) {
        Ok(end) => hand_out(end.send_pacing_response(unit), image, answer),
        Err(why) => refuse_image(why.into(), answer),
    }
}
