// An image read as a record. Any bytes may come in: first the length is asked, then the format, then every value that is a code, a
// flag or a record place. Whether the record keeps document 01's rules is asked by each call, question 5.
ghost use Rattle.std.specs.Prelude.{◌≡◌};
ghost use Rattle.image.specs.ImageParts.{place_at};
ghost use Rattle.image.specs.Image.{format_good, codes_good, flags_good, sending_in, receiving_in, expedited_in, record_in, good_record, image_read};

use crate::codes::{follows_of, mark_of, state_of};
use crate::image_parts::{number_at, place_at};
use crate::{FORMAT, IMAGE};
use answers::refusals::Refusal;
use control::{Control, Role};
use end::{End, Receiving, Sending};
use expedited::Expedited;
use logical_record::Position;
use pacing::Window;

fn format_good(image: &[u8; IMAGE]) -> bool
    ensures { result ≡ format_good image.now }
{
    image[0] == FORMAT
}

fn codes_good(image: &[u8; IMAGE]) -> bool
    ensures { result ≡ codes_good image.now }
{
    (image[1] <= 1) & ((image[2] <= 6) & ((image[3] <= 2) & (image[4] <= 6)))
}

fn flags_good(image: &[u8; IMAGE]) -> bool
    ensures { result ≡ flags_good image.now }
{
    (image[5] <= 1)
        & ((image[6] <= 1)
            & ((image[7] <= 1)
                & ((image[8] <= 1)
                    & ((image[11] <= 1)
                        & ((image[23] <= 1) & ((image[42] <= 1) & (image[43] <= 1)))))))
}

// The record places are read first, by `read_image`: they are the parts whose reading branches. A window is written out, and not
// read by a function of its own, so that its bytes are moved as they are.
fn sending_in(image: &[u8; IMAGE], given: Position) -> Sending
    requires { given ≡ place_at image.now 18 }
    ensures { result ≡ sending_in image.now }
{
    Sending {
        window: Window {
            size: image[9],
            position: image[10],
            pending: image[11] >= 1,
        },
        max: number_at(image, 12),
        held: number_at(image, 14),
        number: number_at(image, 16),
        given,
    }
}

fn receiving_in(image: &[u8; IMAGE], taken: Position, read: Position) -> Receiving
    requires { (taken ≡ place_at image.now 32) × (read ≡ place_at image.now 35) }
    ensures { result ≡ receiving_in image.now }
{
    Receiving {
        window: Window {
            size: image[21],
            position: image[22],
            pending: image[23] >= 1,
        },
        max: number_at(image, 24),
        inbox: number_at(image, 26),
        held: number_at(image, 28),
        number: number_at(image, 30),
        taken,
        read,
    }
}

fn expedited_in(image: &[u8; IMAGE]) -> Expedited
    ensures { result ≡ expedited_in image.now }
{
    Expedited {
        unanswered: image[43] >= 1,
        sent: number_at(image, 44),
        taken: number_at(image, 46),
    }
}

// The control is written out here, and not by a function of its own, so that its first eight bytes are moved as they are.
fn record_in(image: &[u8; IMAGE], given: Position, taken: Position, read: Position) -> End
    requires { (given ≡ place_at image.now 18) × (taken ≡ place_at image.now 32) × (read ≡ place_at image.now 35) }
    ensures { result ≡ record_in image.now }
{
    End {
        control: Control {
            role: Role::from(image[1]),
            state: state_of(image[2]),
            follows: follows_of(image[3]),
            mark: mark_of(image[4]),
            due: image[5] >= 1,
            bid: image[6] >= 1,
            outchain: image[7] >= 1,
            inchain: image[8] >= 1,
            error: image[42] >= 1,
        },
        sending: sending_in(image, given),
        receiving: receiving_in(image, taken, read),
        bidding: number_at(image, 38),
        owed: number_at(image, 40),
        expedited: expedited_in(image),
    }
}

// The record, if every value is one that a record has.
fn good_record(image: &[u8; IMAGE]) -> Option<End>
    ensures { result ≡ good_record image.now }
{
    if !(format_good(image) & codes_good(image) & flags_good(image)) {
        return None;
    }
    let given = place_at(image, 18)?;
    let taken = place_at(image, 32)?;
    let read = place_at(image, 35)?;
    Some(record_in(image, given, taken, read))
}

// The record that the image holds. It is refused where the length is wrong, by 4, and where the format is another or a value is one
// that no record has, by 5.
pub fn read_image(image: &[u8]) -> Result<End, Refusal>
    ensures { result ≡ image_read image.now }
{
    let Some(image) = image.as_array::<IMAGE>() else {
        return Err(Refusal::BadBuffer);
    };
    good_record(image).ok_or(Refusal::BadRecord)
}
