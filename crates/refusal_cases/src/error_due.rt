// Deny refused, and calls refused while the error is due that follows a confirmation denied, or while its mark is unread.
use crossing::named::goes;

const REFUSAL_6_ERROR_DUE: [u8; 418] = *b"refusal_6_error_due\n\
    ends 3 8 3 8 24 24\n\
    1 allocate\n\
    1 confirm\n\
    2 take\n\
    2 read 8\n\
    2 deny\n\
    2 send\n\
    2 send 000931323334353637\n\
    2 read 0\n\
    =\n\
    1 open 0\n\
    2 open 0\n\
    1 allocate 0\n\
    1 confirm 0 unit 0001032180\n\
    2 take 0\n\
    2 read 0 mark confirm\n\
    2 deny 0 unit 000187300008460000\n\
    2 send 6\n\
    2 send 6\n\
    2 read 6\n\
    1 Waits mark none send 0 inbox 0 credit 2 open 3 waiting 1 expedited 0\n\
    2 Send mark none send 0 inbox 0 credit 3 open 2 waiting 0 expedited 0\n";

// In Reset, Send, Defer, Waits and Receive; then with the error due, and after it has gone.
const REFUSAL_7_DENY: [u8; 561] = *b"refusal_7_deny\n\
    ends 3 64 3 64 192 192\n\
    1 deny\n\
    2 deny\n\
    1 allocate\n\
    1 deny\n\
    1 prepare turn\n\
    1 deny\n\
    1 confirm\n\
    1 deny\n\
    2 take\n\
    2 deny\n\
    2 read 9\n\
    2 deny\n\
    2 deny\n\
    2 flush\n\
    2 deny\n\
    =\n\
    1 open 0\n\
    2 open 0\n\
    1 deny 7\n\
    2 deny 7\n\
    1 allocate 0\n\
    1 deny 7\n\
    1 prepare turn 0\n\
    1 deny 7\n\
    1 confirm 0 unit 00010321A0\n\
    1 deny 7\n\
    2 take 0\n\
    2 deny 7\n\
    2 read 0 mark confirm-turn\n\
    2 deny 0 unit 000187300008460000\n\
    2 deny 7\n\
    2 flush 0 unit 00010B910007070889000000\n\
    2 deny 7\n\
    1 Waits mark none send 0 inbox 0 credit 2 open 3 waiting 2 expedited 0\n\
    2 Send mark none send 0 inbox 0 credit 2 open 2 waiting 0 expedited 0\n";

// The error header goes by flush alone. After it a flush of no byte makes no unit, and a turn can be prepared.
const REFUSAL_7_ERROR_DUE: [u8; 759] = *b"refusal_7_error_due\n\
    ends 3 64 3 64 192 192\n\
    1 allocate\n\
    1 turn confirm\n\
    2 take\n\
    2 read 9\n\
    2 deny\n\
    2 allocate\n\
    2 send 0002\n\
    2 confirm\n\
    2 turn\n\
    2 turn confirm\n\
    2 end\n\
    2 end confirm\n\
    2 prepare turn\n\
    2 prepare end\n\
    2 withdraw\n\
    2 confirmed\n\
    2 deny\n\
    2 flush\n\
    2 flush\n\
    2 prepare turn\n\
    =\n\
    1 open 0\n\
    2 open 0\n\
    1 allocate 0\n\
    1 turn confirm 0 unit 00010321A0\n\
    2 take 0\n\
    2 read 0 mark confirm-turn\n\
    2 deny 0 unit 000187300008460000\n\
    2 allocate 7\n\
    2 send 7\n\
    2 confirm 7\n\
    2 turn 7\n\
    2 turn confirm 7\n\
    2 end 7\n\
    2 end confirm 7\n\
    2 prepare turn 7\n\
    2 prepare end 7\n\
    2 withdraw 7\n\
    2 confirmed 7\n\
    2 deny 7\n\
    2 flush 0 unit 00010B910007070889000000\n\
    2 flush 0\n\
    2 prepare turn 0\n\
    1 Waits mark none send 0 inbox 0 credit 2 open 3 waiting 2 expedited 0\n\
    2 Defer-turn mark none send 0 inbox 0 credit 2 open 2 waiting 0 expedited 0\n";

// The negative confirmation costs no credit, the error header one. It stays due until there is credit; pace and take are allowed.
const REFUSAL_10_ERROR_DUE: [u8; 695] = *b"refusal_10_error_due\n\
    ends 1 8 1 8 8 8\n\
    1 allocate\n\
    1 turn\n\
    2 take\n\
    2 read 8\n\
    2 send 0002\n\
    2 confirm\n\
    1 take\n\
    1 read 8\n\
    1 read 8\n\
    1 deny\n\
    1 flush\n\
    1 send 0002\n\
    1 pace\n\
    1 flush\n\
    2 pace\n\
    1 take\n\
    1 flush\n\
    1 send 0002\n\
    =\n\
    1 open 0\n\
    2 open 0\n\
    1 allocate 0\n\
    1 turn 0 unit 00010391A0\n\
    2 take 0\n\
    2 read 0 mark turn\n\
    2 send 0\n\
    2 confirm 0 unit 00010321000002\n\
    1 take 0\n\
    1 read 0 bytes 0002 complete\n\
    1 read 0 mark confirm\n\
    1 deny 0 unit 000187300008460000\n\
    1 flush 10\n\
    1 send 7\n\
    1 pace 0 unit 0000830100\n\
    1 flush 10\n\
    2 pace 0 unit 0000830100\n\
    1 take 0\n\
    1 flush 0 unit 00020B910007070889000000\n\
    1 send 0\n\
    1 Send mark none send 2 inbox 0 credit 0 open 1 waiting 0 expedited 0\n\
    2 Waits mark none send 0 inbox 0 credit 0 open 1 waiting 3 expedited 0\n";

// The state stays Receive when the mark is read.
const REFUSAL_13_MARK_ERROR: [u8; 662] = *b"refusal_13_mark_error\n\
    ends 3 64 3 64 192 192\n\
    1 allocate\n\
    1 confirm\n\
    2 take\n\
    2 read 9\n\
    2 deny\n\
    2 flush\n\
    2 send 0002\n\
    2 turn\n\
    1 take\n\
    1 take\n\
    1 take\n\
    1 send 0002\n\
    1 read 9\n\
    1 read 9\n\
    1 take\n\
    1 read 9\n\
    1 read 9\n\
    =\n\
    1 open 0\n\
    2 open 0\n\
    1 allocate 0\n\
    1 confirm 0 unit 0001032180\n\
    2 take 0\n\
    2 read 0 mark confirm\n\
    2 deny 0 unit 000187300008460000\n\
    2 flush 0 unit 00010B910007070889000000\n\
    2 send 0\n\
    2 turn 0 unit 00020390200002\n\
    1 take 0\n\
    1 take 0\n\
    1 take 13\n\
    1 send 7\n\
    1 read 0 mark error\n\
    1 read 12\n\
    1 take 0\n\
    1 read 0 bytes 0002 complete\n\
    1 read 0 mark turn\n\
    1 Send mark none send 0 inbox 0 credit 2 open 1 waiting 0 expedited 0\n\
    2 Receive mark none send 0 inbox 0 credit 1 open 2 waiting 0 expedited 0\n";

// An end with the error due is in Send: no data fits, and it waits for no confirmation.
const REFUSAL_26_ERROR_DUE: [u8; 525] = *b"refusal_26_error_due\n\
    ends 3 64 3 64 192 192\n\
    1 allocate\n\
    1 confirm\n\
    2 take\n\
    2 read 9\n\
    2 deny\n\
    2 take 00020390000002\n\
    2 take 0000832000\n\
    2 take 000087300008460000\n\
    2 flush\n\
    =\n\
    1 open 0\n\
    2 open 0\n\
    1 allocate 0\n\
    1 confirm 0 unit 0001032180\n\
    2 take 0\n\
    2 read 0 mark confirm\n\
    2 deny 0 unit 000187300008460000\n\
    2 take 26 20040000\n\
    2 take 28 200E0000\n\
    2 take 28 200E0000\n\
    2 flush 0 unit 00010B910007070889000000\n\
    1 Waits mark none send 0 inbox 0 credit 2 open 3 waiting 2 expedited 0\n\
    2 Send mark none send 0 inbox 0 credit 2 open 2 waiting 0 expedited 0\n";

// The case of that name; an unknown one is bad.
pub fn error_due(name: &[u8]) -> bool {
    goes(name, &REFUSAL_6_ERROR_DUE)
        | goes(name, &REFUSAL_7_DENY)
        | goes(name, &REFUSAL_7_ERROR_DUE)
        | goes(name, &REFUSAL_10_ERROR_DUE)
        | goes(name, &REFUSAL_13_MARK_ERROR)
        | goes(name, &REFUSAL_26_ERROR_DUE)
}
