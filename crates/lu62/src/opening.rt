// Opening a session and starting a conversation.
ghost use Rattle.std.specs.Prelude.{◌≡◌};
ghost use Rattle.lu62.specs.Handing.{handed, left};
ghost use Rattle.lu62.specs.Exported.{session, opened_on, allocate_on};

use crate::handing::{hand_opened, hand_out, refuse_image};
use image::decoding::read_image;
use session::{Session, open_session};

// Opens a session by the lengths of the buffers that later calls will be lent. What the image held does not matter.
#[unsafe(no_mangle)]
pub extern "C" fn lu62_open(
    role: u8,
    out_window: u8,
    in_window: u8,
    out_max: u32,
    in_max: u32,
    send_length: usize,
    unit_length: usize,
    inbox_length: usize,
    image: &mut [u8],
    answer: &mut [u32; 9],
) -> u32
    ensures { handed result answer.new image.new
        ≡ opened_on (session role out_window in_window out_max in_max) send_length unit_length inbox_length image.old }
{
    let session = Session {
        role,
        outwindow: out_window,
        inwindow: in_window,
        outmax: out_max,
        inmax: in_max,
    };
    hand_opened(
        open_session(session, send_length, unit_length, inbox_length),
        image,
        answer,
    )
}

// Starts a conversation. A bidder makes a bid.
#[unsafe(no_mangle)]
pub extern "C" fn lu62_allocate(image: &mut [u8], unit: &mut [u8], answer: &mut [u32; 9]) -> u32
    ensures { left (handed result answer.new image.new) unit.new ≡ allocate_on image.old unit.old }
{
    match read_image(image) {
        Ok(end) => hand_out(end.allocate(unit), image, answer),
        Err(why) => refuse_image(why.into(), answer),
    }
}
