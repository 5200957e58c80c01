// A record written as an image.
ghost use Rattle.std.specs.Prelude.{◌≡◌, ◌∷◌};
ghost use Rattle.cells.specs.Cells.{written};
ghost use Rattle.image.specs.Image.{FORMAT, control_bytes, sending_bytes, receiving_bytes, expedited_bytes, image_written};

use crate::codes::{flag_code, follows_code, mark_code, role_code, state_code};
use crate::image_parts::{write_flag, write_number, write_place, write_window};
use crate::{FORMAT, IMAGE};
use end::{End, Receiving, Sending};
use expedited::Expedited;

// The format and the control but for the error-due flag, which stands behind the numbers. It is given the whole record, and not the
// control alone: nine bytes passed on their own would be taken apart bit by bit.
fn write_control(image: &mut [u8; IMAGE], e: End)
    ensures { image.new ≡ written 0 (FORMAT ∷ control_bytes e.control) image.old }
{
    let c = e.control;
    image[0] = FORMAT;
    image[1] = role_code(c.role);
    image[2] = state_code(c.state);
    image[3] = follows_code(c.follows);
    image[4] = mark_code(c.mark);
    image[5] = flag_code(c.due);
    image[6] = flag_code(c.bid);
    image[7] = flag_code(c.outchain);
    image[8] = flag_code(c.inchain);
}

fn write_sending(image: &mut [u8; IMAGE], s: Sending)
    ensures { image.new ≡ written 9 (sending_bytes s) image.old }
{
    write_window(image, 9, s.window);
    write_number(image, 12, s.max);
    write_number(image, 14, s.held);
    write_number(image, 16, s.number);
    write_place(image, 18, s.given);
}

fn write_receiving(image: &mut [u8; IMAGE], r: Receiving)
    ensures { image.new ≡ written 21 (receiving_bytes r) image.old }
{
    write_window(image, 21, r.window);
    write_number(image, 24, r.max);
    write_number(image, 26, r.inbox);
    write_number(image, 28, r.held);
    write_number(image, 30, r.number);
    write_place(image, 32, r.taken);
    write_place(image, 35, r.read);
}

fn write_expedited(image: &mut [u8; IMAGE], x: Expedited)
    ensures { image.new ≡ written 43 (expedited_bytes x) image.old }
{
    write_flag(image, 43, x.unanswered);
    write_number(image, 44, x.sent);
    write_number(image, 46, x.taken);
}

// Writes the record over an image. Where the length is not an image's, nothing is written.
pub fn write_image(end: End, image: &mut [u8])
    ensures { image.new ≡ image_written end image.old }
{
    let Some(image) = image.as_mut_array::<IMAGE>() else {
        return;
    };
    write_control(image, end);
    write_sending(image, end.sending);
    write_receiving(image, end.receiving);
    write_number(image, 38, end.bidding);
    write_number(image, 40, end.owed);
    write_flag(image, 42, end.control.error);
    write_expedited(image, end.expedited);
}
