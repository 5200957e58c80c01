// A turn or an end prepared and not yet carried out (document 02: prepare), and withdrawn. These calls are lent no buffer and make no
// unit; `lu62_flush` and `lu62_confirm` carry out what is prepared.
ghost use Rattle.std.specs.Prelude.{◌≡◌};
ghost use Rattle.control.specs.declared.Deferred.TheVariants.{Turn, End};
ghost use Rattle.lu62.specs.Handing.{handed};
ghost use Rattle.lu62.specs.Exported.{defer_on, withdraw_on};

use crate::handing::{hand_out, refuse_image};
use control::Deferred;
use image::decoding::read_image;

// Prepare on an image, of which the two below are names.
fn defer_on(image: &mut [u8], what: Deferred, answer: &mut [u32; 9]) -> u32
    ensures { handed result answer.new image.new ≡ defer_on what image.old }
{
    match read_image(image) {
        Ok(end) => hand_out(end.defer(what), image, answer),
        Err(why) => refuse_image(why.into(), answer),
    }
}

// Notes that the partner is to be given the turn.
#[unsafe(no_mangle)]
pub extern "C" fn lu62_defer_turn(image: &mut [u8], answer: &mut [u32; 9]) -> u32
    ensures { handed result answer.new image.new ≡ defer_on Turn image.old }
{
    defer_on(image, Deferred::Turn, answer)
}

// Notes that the conversation is to be ended.
#[unsafe(no_mangle)]
pub extern "C" fn lu62_defer_end(image: &mut [u8], answer: &mut [u32; 9]) -> u32
    ensures { handed result answer.new image.new ≡ defer_on End image.old }
{
    defer_on(image, Deferred::End, answer)
}

// Drops the turn or end that is noted: the end may send again.
#[unsafe(no_mangle)]
pub extern "C" fn lu62_withdraw(image: &mut [u8], answer: &mut [u32; 9]) -> u32
    ensures { handed result answer.new image.new ≡ withdraw_on image.old }
{
    match read_image(image) {
        Ok(end) => hand_out(end.withdraw(), image, answer),
        Err(why) => refuse_image(why.into(), answer),
    }
}
