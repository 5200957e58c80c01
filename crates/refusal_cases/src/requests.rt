// Request to send refused: in a state that does not allow it, and while a signal is unanswered.
use crossing::named::goes;

// Until the answer is taken, and not only until it is made.
const REFUSAL_30_UNANSWERED: [u8; 607] = *b"refusal_30_unanswered\n\
    ends 3 64 3 64 192 192\n\
    1 allocate\n\
    1 confirm\n\
    2 take\n\
    2 request\n\
    2 request\n\
    2 read 9\n\
    2 request\n\
    1 take expedited\n\
    2 request\n\
    2 take expedited\n\
    2 request\n\
    =\n\
    1 open 0\n\
    2 open 0\n\
    1 allocate 0\n\
    1 confirm 0 unit 0001032180\n\
    2 take 0\n\
    2 request 0 unit 00014B8000C900010000\n\
    2 request 30 00000000\n\
    2 read 0 mark confirm\n\
    2 request 30 00000000\n\
    1 take expedited 0 unit 0001CB8000C9 signalled\n\
    2 request 30 00000000\n\
    2 take expedited 0\n\
    2 request 0 unit 00024B8000C900010000\n\
    1 Waits mark none send 0 inbox 0 credit 2 open 3 waiting 0 expedited 1\n\
    2 Owes mark none send 0 inbox 0 credit 3 open 2 waiting 0 expedited 0\n";

// The state has moved on, and the signal is unanswered still.
const REFUSAL_7_REQUEST_UNANSWERED: [u8; 417] = *b"refusal_7_request_unanswered\n\
    ends 3 64 3 64 192 192\n\
    1 allocate\n\
    1 turn\n\
    2 take\n\
    2 request\n\
    2 request\n\
    2 read 9\n\
    2 request\n\
    =\n\
    1 open 0\n\
    2 open 0\n\
    1 allocate 0\n\
    1 turn 0 unit 00010391A0\n\
    2 take 0\n\
    2 request 0 unit 00014B8000C900010000\n\
    2 request 30 00000000\n\
    2 read 0 mark turn\n\
    2 request 7\n\
    1 Receive mark none send 0 inbox 0 credit 2 open 3 waiting 0 expedited 1\n\
    2 Send mark none send 0 inbox 0 credit 3 open 2 waiting 0 expedited 0\n";

const REFUSAL_7_REQUEST_IN_RESET: [u8; 328] = *b"refusal_7_request_in_reset\n\
    ends 3 64 3 64 192 192\n\
    1 request\n\
    2 request\n\
    2 allocate\n\
    2 request\n\
    =\n\
    1 open 0\n\
    2 open 0\n\
    1 request 7\n\
    2 request 7\n\
    2 allocate 0 unit 00014B81800400060000\n\
    2 request 7\n\
    1 Reset mark none send 0 inbox 0 credit 3 open 3 waiting 1 expedited 0\n\
    2 Reset mark none send 0 inbox 0 credit 2 open 3 waiting 0 expedited 0\n";

const REFUSAL_7_REQUEST_IN_SEND: [u8; 299] = *b"refusal_7_request_in_send\n\
    ends 3 64 3 64 192 192\n\
    1 allocate\n\
    1 request\n\
    1 send 0002\n\
    1 request\n\
    =\n\
    1 open 0\n\
    2 open 0\n\
    1 allocate 0\n\
    1 request 7\n\
    1 send 0\n\
    1 request 7\n\
    1 Send mark none send 2 inbox 0 credit 3 open 3 waiting 0 expedited 0\n\
    2 Reset mark none send 0 inbox 0 credit 3 open 3 waiting 0 expedited 0\n";

// A signal is taken there.
const REFUSAL_7_REQUEST_IN_DEFER_TURN: [u8; 385] = *b"refusal_7_request_in_defer_turn\n\
    ends 3 64 3 64 192 192\n\
    1 allocate\n\
    1 prepare turn\n\
    1 request\n\
    1 take expedited 00014B8000C900010000\n\
    =\n\
    1 open 0\n\
    2 open 0\n\
    1 allocate 0\n\
    1 prepare turn 0\n\
    1 request 7\n\
    1 take expedited 0 unit 0001CB8000C9 signalled\n\
    1 Defer-turn mark none send 0 inbox 0 credit 3 open 3 waiting 0 expedited 0\n\
    2 Reset mark none send 0 inbox 0 credit 3 open 3 waiting 0 expedited 1\n";

// A signal is taken there too.
const REFUSAL_7_REQUEST_IN_DEFER_END: [u8; 381] = *b"refusal_7_request_in_defer_end\n\
    ends 3 64 3 64 192 192\n\
    1 allocate\n\
    1 prepare end\n\
    1 request\n\
    1 take expedited 00014B8000C900010000\n\
    =\n\
    1 open 0\n\
    2 open 0\n\
    1 allocate 0\n\
    1 prepare end 0\n\
    1 request 7\n\
    1 take expedited 0 unit 0001CB8000C9 signalled\n\
    1 Defer-end mark none send 0 inbox 0 credit 3 open 3 waiting 0 expedited 0\n\
    2 Reset mark none send 0 inbox 0 credit 3 open 3 waiting 0 expedited 1\n";

const REFUSAL_7_REQUEST_IN_WAITS: [u8; 296] = *b"refusal_7_request_in_waits\n\
    ends 3 64 3 64 192 192\n\
    1 allocate\n\
    1 confirm\n\
    1 request\n\
    =\n\
    1 open 0\n\
    2 open 0\n\
    1 allocate 0\n\
    1 confirm 0 unit 0001032180\n\
    1 request 7\n\
    1 Waits mark none send 0 inbox 0 credit 2 open 3 waiting 0 expedited 0\n\
    2 Reset mark none send 0 inbox 0 credit 3 open 3 waiting 1 expedited 0\n";

// The case of that name; an unknown one is bad.
pub fn requests(name: &[u8]) -> bool {
    goes(name, &REFUSAL_30_UNANSWERED)
        | goes(name, &REFUSAL_7_REQUEST_UNANSWERED)
        | goes(name, &REFUSAL_7_REQUEST_IN_RESET)
        | goes(name, &REFUSAL_7_REQUEST_IN_SEND)
        | goes(name, &REFUSAL_7_REQUEST_IN_DEFER_TURN)
        | goes(name, &REFUSAL_7_REQUEST_IN_DEFER_END)
        | goes(name, &REFUSAL_7_REQUEST_IN_WAITS)
}
