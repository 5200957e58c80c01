// The calls that programs make on a record that they hold by value: each lends it to the call in place and hands the new one back.
// Their promises are word for word those of the end's methods.
ghost use Rattle.std.specs.Prelude.{◌≡◌};
ghost use Rattle.end.specs.Allocate.{allocate};
ghost use Rattle.end.specs.SendData.{send_data};
ghost use Rattle.end.specs.Close.{deallocate};
ghost use Rattle.end.specs.ReceiveUnit.{receive_unit};
ghost use Rattle.end.specs.Receive.{receive};
ghost use Rattle.end.specs.Results.{made_by, sent_by, taken_by, copied_by};

use crate::in_place;
use end::{Done, End, ReadDone};

pub fn allocate(mut end: End, unit: &mut [u8]) -> Done
    ensures { made_by result unit.new ≡ allocate end unit.old }
{
    let answer = in_place::allocate(&mut end, unit);
    Done { answer, end }
}

pub fn send_data(mut end: End, bytes: &[u8], send: &mut [u8], unit: &mut [u8]) -> Done
    ensures { sent_by result send.new unit.new ≡ send_data end bytes.now send.old unit.old }
{
    let answer = in_place::send_data(&mut end, bytes, send, unit);
    Done { answer, end }
}

pub fn deallocate(mut end: End, confirm: bool, send: &[u8], unit: &mut [u8]) -> Done
    ensures { made_by result unit.new ≡ deallocate confirm end send.now unit.old }
{
    let answer = in_place::deallocate(&mut end, confirm, send, unit);
    Done { answer, end }
}

pub fn receive_unit(mut end: End, taken: &[u8], inbox: &mut [u8], unit: &mut [u8]) -> Done
    ensures { taken_by result inbox.new unit.new
        ≡ receive_unit end taken.now inbox.old unit.old }
{
    let answer = in_place::receive_unit(&mut end, taken, inbox, unit);
    Done { answer, end }
}

pub fn receive(mut end: End, inbox: &mut [u8], buffer: &mut [u8]) -> ReadDone
    ensures { copied_by result inbox.new buffer.new ≡ receive end inbox.old buffer.old }
{
    let answer = in_place::receive(&mut end, inbox, buffer);
    ReadDone { answer, end }
}
