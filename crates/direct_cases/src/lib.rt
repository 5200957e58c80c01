// Named cases that no script can ask for: each makes the delivered calls itself and compares every byte.
#![tactic(auto)]

mod deferred;
mod expedited_calls;
mod forged;
mod forged_defer;
mod forged_error;
mod lent_short;
mod opened;
mod refused;
mod session_bytes;
mod wrapping;

use check::same;
use deferred::prepared_as_at_once;
use expedited_calls::{
    expedited_take_in_each_state, refusal_4_expedited, refusal_5_forged_expedited,
    refusal_7_before_30, refusal_30_forged, seq_expedited, signal_unanswered_in_each_state,
};
use forged::{
    refusal_5_forged_receives, refusal_5_forged_sends, refusal_5_forged_unit_calls, refusal_8_read,
};
use forged_defer::{
    refusal_5_defer_chain_of_none, refusal_5_defer_due_at_bidder, refusal_5_forged_prepare,
    refusal_9_forged_defer,
};
use forged_error::{
    error_header_within_record, refusal_5_error_due_bb_due, refusal_5_error_due_bytes_held,
    refusal_5_error_due_in_defer, refusal_5_error_due_in_receive,
};
use lent_short::{
    refusal_4_error_due, refusal_4_in_defer, refusal_4_inbox_of_read, refusal_4_inbox_of_take,
    refusal_4_send_buffer, refusal_4_unit_buffer,
};
use opened::refusal_1_role;
use session_bytes::{
    bytes_of_sizes, opened_by_bytes, refusal_3_before_31, refusal_31_no_byte, refusals_by_bytes,
};
use wrapping::seq;

fn opened_and_forged(name: &[u8]) -> bool {
    (same(name, b"refusal_1_role") & refusal_1_role())
        | (same(name, b"seq") & seq())
        | (same(name, b"refusal_5_forged_unit_calls") & refusal_5_forged_unit_calls())
        | (same(name, b"refusal_5_forged_sends") & refusal_5_forged_sends())
        | (same(name, b"refusal_5_forged_receives") & refusal_5_forged_receives())
}

fn lent(name: &[u8]) -> bool {
    (same(name, b"refusal_4_unit_buffer") & refusal_4_unit_buffer())
        | (same(name, b"refusal_4_send_buffer") & refusal_4_send_buffer())
        | (same(name, b"refusal_4_inbox_of_take") & refusal_4_inbox_of_take())
        | (same(name, b"refusal_4_inbox_of_read") & refusal_4_inbox_of_read())
        | (same(name, b"refusal_8_read") & refusal_8_read())
}

fn in_defer(name: &[u8]) -> bool {
    (same(name, b"prepared_as_at_once") & prepared_as_at_once())
        | (same(name, b"refusal_4_in_defer") & refusal_4_in_defer())
        | (same(name, b"refusal_5_forged_prepare") & refusal_5_forged_prepare())
        | (same(name, b"refusal_5_defer_chain_of_none") & refusal_5_defer_chain_of_none())
        | (same(name, b"refusal_5_defer_due_at_bidder") & refusal_5_defer_due_at_bidder())
        | (same(name, b"refusal_9_forged_defer") & refusal_9_forged_defer())
}

fn error_due(name: &[u8]) -> bool {
    (same(name, b"refusal_4_error_due") & refusal_4_error_due())
        | (same(name, b"refusal_5_error_due_bytes_held") & refusal_5_error_due_bytes_held())
        | (same(name, b"refusal_5_error_due_in_defer") & refusal_5_error_due_in_defer())
        | (same(name, b"refusal_5_error_due_bb_due") & refusal_5_error_due_bb_due())
        | (same(name, b"refusal_5_error_due_in_receive") & refusal_5_error_due_in_receive())
        | (same(name, b"error_header_within_record") & error_header_within_record())
}

fn expedited(name: &[u8]) -> bool {
    (same(name, b"seq_expedited") & seq_expedited())
        | (same(name, b"refusal_4_expedited") & refusal_4_expedited())
        | (same(name, b"refusal_5_forged_expedited") & refusal_5_forged_expedited())
        | (same(name, b"refusal_7_before_30") & refusal_7_before_30())
        | (same(name, b"refusal_30_forged") & refusal_30_forged())
        | (same(name, b"expedited_take_in_each_state") & expedited_take_in_each_state())
        | (same(name, b"signal_unanswered_in_each_state") & signal_unanswered_in_each_state())
}

fn from_bytes(name: &[u8]) -> bool {
    (same(name, b"opened_by_bytes") & opened_by_bytes())
        | (same(name, b"refusals_by_bytes") & refusals_by_bytes())
        | (same(name, b"bytes_of_sizes") & bytes_of_sizes())
        | (same(name, b"refusal_31_no_byte") & refusal_31_no_byte())
        | (same(name, b"refusal_3_before_31") & refusal_3_before_31())
}

// Whether the case of that name went as it should; an unknown name is bad. Every case is run whatever the name: they are short.
pub fn run(name: &[u8]) -> bool {
    opened_and_forged(name)
        | lent(name)
        | in_defer(name)
        | error_due(name)
        | expedited(name)
        | from_bytes(name)
}
