// Document 01's ten calls, send error and the two calls of the expedited lines on a lent record: each calls the method and stores the
// new record where the old one stood. The papers ask for each call on a lent record; each is three lines. Defer and withdraw, which are
// lent no buffer, have none here.
ghost use Rattle.std.specs.Prelude.{◌≡◌};
ghost use Rattle.end.specs.Allocate.{allocate};
ghost use Rattle.end.specs.SendData.{send_data};
ghost use Rattle.end.specs.Close.{flush, confirm, prepare_to_receive, deallocate};
ghost use Rattle.end.specs.Confirmed.{confirmed};
ghost use Rattle.end.specs.SendError.{send_error};
ghost use Rattle.end.specs.RequestToSend.{request_to_send};
ghost use Rattle.end.specs.ReceiveUnit.{receive_unit};
ghost use Rattle.end.specs.ReceiveExpedited.{receive_expedited};
ghost use Rattle.end.specs.Receive.{receive};
ghost use Rattle.end.specs.SendPacingResponse.{send_pacing_response};
ghost use Rattle.end.specs.Results.{made_by, sent_by, taken_by, copied_by, expedited_by};
ghost use Rattle.host.specs.InPlace.{done_by, read_done_by, expedited_done_by};

use end::{Answer, End, ExpeditedAnswer, ReadAnswer};

pub fn allocate(end: &mut End, unit: &mut [u8]) -> Answer
    ensures { made_by (done_by result end.new) unit.new ≡ allocate end.old unit.old }
{
    let done = end.allocate(unit);
    *end = done.end;
    done.answer
}

pub fn send_data(end: &mut End, bytes: &[u8], send: &mut [u8], unit: &mut [u8]) -> Answer
    ensures { sent_by (done_by result end.new) send.new unit.new
        ≡ send_data end.old bytes.now send.old unit.old }
{
    let done = end.send_data(bytes, send, unit);
    *end = done.end;
    done.answer
}

pub fn flush(end: &mut End, send: &[u8], unit: &mut [u8]) -> Answer
    ensures { made_by (done_by result end.new) unit.new ≡ flush end.old send.now unit.old }
{
    let done = end.flush(send, unit);
    *end = done.end;
    done.answer
}

pub fn confirm(end: &mut End, send: &[u8], unit: &mut [u8]) -> Answer
    ensures { made_by (done_by result end.new) unit.new ≡ confirm end.old send.now unit.old }
{
    let done = end.confirm(send, unit);
    *end = done.end;
    done.answer
}

pub fn prepare_to_receive(end: &mut End, confirm: bool, send: &[u8], unit: &mut [u8]) -> Answer
    ensures { made_by (done_by result end.new) unit.new
        ≡ prepare_to_receive confirm end.old send.now unit.old }
{
    let done = end.prepare_to_receive(confirm, send, unit);
    *end = done.end;
    done.answer
}

pub fn deallocate(end: &mut End, confirm: bool, send: &[u8], unit: &mut [u8]) -> Answer
    ensures { made_by (done_by result end.new) unit.new ≡ deallocate confirm end.old send.now unit.old }
{
    let done = end.deallocate(confirm, send, unit);
    *end = done.end;
    done.answer
}

pub fn confirmed(end: &mut End, unit: &mut [u8]) -> Answer
    ensures { made_by (done_by result end.new) unit.new ≡ confirmed end.old unit.old }
{
    let done = end.confirmed(unit);
    *end = done.end;
    done.answer
}

pub fn send_error(end: &mut End, unit: &mut [u8]) -> Answer
    ensures { made_by (done_by result end.new) unit.new ≡ send_error end.old unit.old }
{
    let done = end.send_error(unit);
    *end = done.end;
    done.answer
}

pub fn request_to_send(end: &mut End, unit: &mut [u8]) -> Answer
    ensures { made_by (done_by result end.new) unit.new ≡ request_to_send end.old unit.old }
{
    let done = end.request_to_send(unit);
    *end = done.end;
    done.answer
}

pub fn receive_unit(end: &mut End, taken: &[u8], inbox: &mut [u8], unit: &mut [u8]) -> Answer
    ensures { taken_by (done_by result end.new) inbox.new unit.new
        ≡ receive_unit end.old taken.now inbox.old unit.old }
{
    let done = end.receive_unit(taken, inbox, unit);
    *end = done.end;
    done.answer
}

pub fn receive_expedited(end: &mut End, taken: &[u8], unit: &mut [u8]) -> ExpeditedAnswer
    ensures { expedited_by (expedited_done_by result end.new) unit.new
        ≡ receive_expedited end.old taken.now unit.old }
{
    let done = end.receive_expedited(taken, unit);
    *end = done.end;
    done.answer
}

pub fn receive(end: &mut End, inbox: &mut [u8], buffer: &mut [u8]) -> ReadAnswer
    ensures { copied_by (read_done_by result end.new) inbox.new buffer.new
        ≡ receive end.old inbox.old buffer.old }
{
    let done = end.receive(inbox, buffer);
    *end = done.end;
    done.answer
}

pub fn send_pacing_response(end: &mut End, unit: &mut [u8]) -> Answer
    ensures { made_by (done_by result end.new) unit.new ≡ send_pacing_response end.old unit.old }
{
    let done = end.send_pacing_response(unit);
    *end = done.end;
    done.answer
}
