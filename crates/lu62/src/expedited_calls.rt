// The turn requested while the partner sends (document 02): a signal made, and the units of the expedited lines taken, which are a signal
// or the answer to one. The units that these calls make go on the expedited line.
ghost use Rattle.std.specs.Prelude.{◌≡◌};
ghost use Rattle.lu62.specs.Handing.{handed, left};
ghost use Rattle.lu62.specs.Exported.{request_to_send_on, receive_expedited_on};

use crate::handing::{hand_out, refuse_image};
use image::decoding::read_image;

// Makes a signal.
#[unsafe(no_mangle)]
pub extern "C" fn lu62_request_to_send(
    image: &mut [u8],
    unit: &mut [u8],
    answer: &mut [u32; 9],
) -> u32
    ensures { left (handed result answer.new image.new) unit.new
        ≡ request_to_send_on image.old unit.old }
{
    match read_image(image) {
        Ok(end) => hand_out(end.request_to_send(unit), image, answer),
        Err(why) => refuse_image(why.into(), answer),
    }
}

// Takes one unit of the expedited line. Of a signal it makes the answer.
#[unsafe(no_mangle)]
pub extern "C" fn lu62_receive_expedited(
    image: &mut [u8],
    taken: &[u8],
    unit: &mut [u8],
    answer: &mut [u32; 9],
) -> u32
    ensures { left (handed result answer.new image.new) unit.new
        ≡ receive_expedited_on taken.now image.old unit.old }
{
    match read_image(image) {
        Ok(end) => hand_out(end.receive_expedited(taken, unit), image, answer),
        Err(why) => refuse_image(why.into(), answer),
    }
}
