// An attach header written, in its single form.
ghost use Rattle.std.specs.Prelude.{◌≡◌, true, ◌≤◌, length};
ghost use Rattle.answers.specs.Refusals.{outcome_number};
ghost use Rattle.answers.specs.FirstNo.{first_no};
ghost use Rattle.digits.specs.PutAt.{put_at};
ghost use Rattle.attach_header.specs.Fields.{fields_of};
ghost use Rattle.attach_header.specs.Written.{header_of, needed, writable, write_questions, write_attach};

use crate::written_parts::{put_string, put_trailing};
use crate::written_tests::{is_writable, needed_length};
use crate::{Attach, LONGEST};
use answers::questions::ask;
use answers::refusals::Refusal;
use answers::{Answer, accept, refuse};
use digits::printed::put;

// What is written: the length of the header, 0 where it is refused. No Result: `write_attach` is so defined.
#[derive(Clone, Copy)]
pub struct Written {
    pub answer: Answer,
    pub length: usize,
}

// The buffer, the length that is needed, the fields.
#[tactic(auto, unfolding(crate::specs::Written::write_questions))]
fn write_refusal(attach: Attach, room: usize) -> Result<(), Refusal>
    ensures { outcome_number result ≡ first_no (write_questions attach room) }
{
    ask(LONGEST <= room, Refusal::BadBuffer)?;
    ask(needed_length(attach) <= LONGEST, Refusal::LongAttach)?;
    ask(is_writable(attach), Refusal::BadAttach)
}

// Bytes 0 to j, the program name behind its length, and what trails.
fn put_header(out: &mut [u8], attach: Attach) -> usize
    requires { (writable attach ≡ true) × (needed attach ≤ 255) × (255 ≤ length out.old) }
    ensures { (result, out.new) ≡ put_at (header_of (fields_of attach)) 0 out.old }
{
    let total = needed_length(attach) as u8;
    let program = attach.program;
    let head = [
        total,
        0x05,
        0x02,
        0xFF,
        8 * attach.pip,
        3,
        attach.resource,
        0,
        64 * attach.sync,
        program.length,
    ];
    let name = put(out, 0, &head);
    let behind = put_string(out, name, program);
    put_trailing(out, behind, attach)
}

// Writes an attach header at the front of a buffer. A refusal changes no cell.
#[tactic(auto, unfolding(crate::specs::Written::write_attach))]
pub fn write_attach(attach: Attach, header: &mut [u8]) -> Written
    ensures { (result, header.new) ≡ write_attach attach header.old }
{
    if let Err(why) = write_refusal(attach, header.len()) {
        return Written {
            answer: refuse(why.into()),
            length: 0,
        };
    }
    let length = put_header(header, attach);
    Written {
        answer: accept(0),
        length,
    }
}
