// What is proved of images as a whole. What the functions compute does not matter: their contracts are the claims, so that a
// check prints their names and fails if a proof goes.
ghost use Rattle.std.specs.Prelude.{◌≡◌, Ok};
ghost use Rattle.end.specs.declared.End as holds;
ghost use Rattle.image.specs.ImageParts.{first_byte};
ghost use Rattle.image.specs.Image.{image_of, image_read};

use crate::decoding::read_image;
use end::End;
use logical_record::Position;

// The first LL byte, where the place is after it. Read here so that the proof knows it for a u8.
fn first_byte(p: Position) -> u8
    ensures { result ≡ first_byte p }
{
    match p {
        Position::Between(_) => 0,
        Position::AfterFirst(byte) => byte,
        Position::Remaining(_, _) => 0,
    }
}

// Every record is written as an image that is read back as the same record.
pub fn written_is_read(end: End)
    ensures { image_read (image_of end) ≡ Ok end }
{
    first_byte(end.sending.given);
    first_byte(end.receiving.taken);
    first_byte(end.receiving.read);
}

// Every image that holds a record is what writing that record leaves, byte for byte.
pub fn read_is_written(image: &[u8])
    ensures { (e : holds.End) → image_read image.now ≡ Ok e → image_of e ≡ image.now }
{
    let _ = read_image(image);
}
