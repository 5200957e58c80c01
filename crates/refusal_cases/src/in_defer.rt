// Prepare and withdraw refused, and calls refused in Defer, where a turn or an end is prepared.
use crossing::named::goes;

const REFUSAL_6_IN_DEFER: [u8; 330] = *b"refusal_6_in_defer\n\
    ends 3 8 3 8 24 24\n\
    1 allocate\n\
    1 prepare turn\n\
    1 send\n\
    1 send 000931323334353637\n\
    1 read 0\n\
    =\n\
    1 open 0\n\
    2 open 0\n\
    1 allocate 0\n\
    1 prepare turn 0\n\
    1 send 6\n\
    1 send 6\n\
    1 read 6\n\
    1 Defer-turn mark none send 0 inbox 0 credit 3 open 3 waiting 0 expedited 0\n\
    2 Reset mark none send 0 inbox 0 credit 3 open 3 waiting 0 expedited 0\n";

// What is prepared stays so, and no other is prepared in its place.
const REFUSAL_7_IN_DEFER_TURN: [u8; 555] = *b"refusal_7_in_defer_turn\n\
    ends 3 64 3 64 192 192\n\
    1 allocate\n\
    1 send 0003AA\n\
    1 prepare turn\n\
    1 allocate\n\
    1 send 0002\n\
    1 turn\n\
    1 turn confirm\n\
    1 end\n\
    1 end confirm\n\
    1 prepare turn\n\
    1 prepare end\n\
    1 confirmed\n\
    1 flush\n\
    =\n\
    1 open 0\n\
    2 open 0\n\
    1 allocate 0\n\
    1 send 0\n\
    1 prepare turn 0\n\
    1 allocate 7\n\
    1 send 7\n\
    1 turn 7\n\
    1 turn confirm 7\n\
    1 end 7\n\
    1 end confirm 7\n\
    1 prepare turn 7\n\
    1 prepare end 7\n\
    1 confirmed 7\n\
    1 flush 0 unit 00010391A00003AA\n\
    1 Receive mark none send 0 inbox 0 credit 2 open 3 waiting 0 expedited 0\n\
    2 Reset mark none send 0 inbox 0 credit 3 open 3 waiting 1 expedited 0\n";

const REFUSAL_7_IN_DEFER_END: [u8; 550] = *b"refusal_7_in_defer_end\n\
    ends 3 64 3 64 192 192\n\
    1 allocate\n\
    1 send 0003AA\n\
    1 prepare end\n\
    1 allocate\n\
    1 send 0002\n\
    1 turn\n\
    1 turn confirm\n\
    1 end\n\
    1 end confirm\n\
    1 prepare turn\n\
    1 prepare end\n\
    1 confirmed\n\
    1 flush\n\
    =\n\
    1 open 0\n\
    2 open 0\n\
    1 allocate 0\n\
    1 send 0\n\
    1 prepare end 0\n\
    1 allocate 7\n\
    1 send 7\n\
    1 turn 7\n\
    1 turn confirm 7\n\
    1 end 7\n\
    1 end confirm 7\n\
    1 prepare turn 7\n\
    1 prepare end 7\n\
    1 confirmed 7\n\
    1 flush 0 unit 00010391810003AA\n\
    1 Reset mark none send 0 inbox 0 credit 2 open 3 waiting 0 expedited 0\n\
    2 Reset mark none send 0 inbox 0 credit 3 open 3 waiting 1 expedited 0\n";

// In Reset, Waits, Receive and Owes.
const REFUSAL_7_PREPARE: [u8; 559] = *b"refusal_7_prepare\n\
    ends 3 64 3 64 192 192\n\
    1 prepare turn\n\
    1 prepare end\n\
    1 allocate\n\
    1 confirm\n\
    1 prepare turn\n\
    1 prepare end\n\
    2 take\n\
    2 prepare turn\n\
    2 prepare end\n\
    2 read 9\n\
    2 prepare turn\n\
    2 prepare end\n\
    =\n\
    1 open 0\n\
    2 open 0\n\
    1 prepare turn 7\n\
    1 prepare end 7\n\
    1 allocate 0\n\
    1 confirm 0 unit 0001032180\n\
    1 prepare turn 7\n\
    1 prepare end 7\n\
    2 take 0\n\
    2 prepare turn 7\n\
    2 prepare end 7\n\
    2 read 0 mark confirm\n\
    2 prepare turn 7\n\
    2 prepare end 7\n\
    1 Waits mark none send 0 inbox 0 credit 2 open 3 waiting 0 expedited 0\n\
    2 Owes mark none send 0 inbox 0 credit 3 open 2 waiting 0 expedited 0\n";

// In Reset, Send, Waits, Receive and Owes.
const REFUSAL_7_WITHDRAW: [u8; 549] = *b"refusal_7_withdraw\n\
    ends 3 64 3 64 192 192\n\
    1 withdraw\n\
    1 allocate\n\
    1 withdraw\n\
    1 prepare turn\n\
    1 withdraw\n\
    1 withdraw\n\
    1 prepare turn\n\
    1 confirm\n\
    1 withdraw\n\
    2 take\n\
    2 withdraw\n\
    2 read 9\n\
    2 withdraw\n\
    =\n\
    1 open 0\n\
    2 open 0\n\
    1 withdraw 7\n\
    1 allocate 0\n\
    1 withdraw 7\n\
    1 prepare turn 0\n\
    1 withdraw 0\n\
    1 withdraw 7\n\
    1 prepare turn 0\n\
    1 confirm 0 unit 00010321A0\n\
    1 withdraw 7\n\
    2 take 0\n\
    2 withdraw 7\n\
    2 read 0 mark confirm-turn\n\
    2 withdraw 7\n\
    1 Waits mark none send 0 inbox 0 credit 2 open 3 waiting 0 expedited 0\n\
    2 Owes mark none send 0 inbox 0 credit 3 open 2 waiting 0 expedited 0\n";

const REFUSAL_9_PREPARE: [u8; 520] = *b"refusal_9_prepare\n\
    ends 3 64 3 64 192 192\n\
    1 allocate\n\
    1 send 00\n\
    1 prepare turn\n\
    1 send 05\n\
    1 prepare turn\n\
    1 prepare end\n\
    1 flush\n\
    1 prepare end\n\
    1 send 414243\n\
    1 prepare end\n\
    1 flush\n\
    =\n\
    1 open 0\n\
    2 open 0\n\
    1 allocate 0\n\
    1 send 0\n\
    1 prepare turn 9\n\
    1 send 0\n\
    1 prepare turn 9\n\
    1 prepare end 9\n\
    1 flush 0 unit 00010391800005\n\
    1 prepare end 9\n\
    1 send 0\n\
    1 prepare end 0\n\
    1 flush 0 unit 0002039001414243\n\
    1 Reset mark none send 0 inbox 0 credit 1 open 3 waiting 0 expedited 0\n\
    2 Reset mark none send 0 inbox 0 credit 3 open 3 waiting 2 expedited 0\n";

// 80 02 says that another part follows: held or sent, it is not the end of a table.
const REFUSAL_9_PREPARE_AFTER_PART: [u8; 449] = *b"refusal_9_prepare_after_part\n\
    ends 3 64 3 64 192 192\n\
    1 allocate\n\
    1 send 8002\n\
    1 prepare turn\n\
    1 prepare end\n\
    1 flush\n\
    1 prepare turn\n\
    1 send 0002\n\
    1 prepare turn\n\
    =\n\
    1 open 0\n\
    2 open 0\n\
    1 allocate 0\n\
    1 send 0\n\
    1 prepare turn 9\n\
    1 prepare end 9\n\
    1 flush 0 unit 00010391808002\n\
    1 prepare turn 9\n\
    1 send 0\n\
    1 prepare turn 0\n\
    1 Defer-turn mark none send 2 inbox 0 credit 2 open 3 waiting 0 expedited 0\n\
    2 Reset mark none send 0 inbox 0 credit 3 open 3 waiting 1 expedited 0\n";

const REFUSAL_10_IN_DEFER: [u8; 538] = *b"refusal_10_in_defer\n\
    ends 2 8 2 8 16 16\n\
    1 allocate\n\
    1 send 0002\n\
    1 flush\n\
    1 send 0002\n\
    1 flush\n\
    1 send 0002\n\
    1 prepare turn\n\
    1 flush\n\
    1 confirm\n\
    1 withdraw\n\
    1 prepare end\n\
    1 flush\n\
    1 confirm\n\
    =\n\
    1 open 0\n\
    2 open 0\n\
    1 allocate 0\n\
    1 send 0\n\
    1 flush 0 unit 00010391800002\n\
    1 send 0\n\
    1 flush 0 unit 00020390000002\n\
    1 send 0\n\
    1 prepare turn 0\n\
    1 flush 10\n\
    1 confirm 10\n\
    1 withdraw 0\n\
    1 prepare end 0\n\
    1 flush 10\n\
    1 confirm 10\n\
    1 Defer-end mark none send 2 inbox 0 credit 0 open 2 waiting 0 expedited 0\n\
    2 Reset mark none send 0 inbox 0 credit 2 open 2 waiting 2 expedited 0\n";

// No answer is owed; then one is, and the inbox has no room for a window more.
const REFUSAL_11_IN_DEFER: [u8; 392] = *b"refusal_11_in_defer\n\
    ends 3 64 3 64 192 192\n\
    2 allocate\n\
    1 allocate\n\
    1 prepare turn\n\
    1 pace\n\
    1 take\n\
    1 pace\n\
    =\n\
    1 open 0\n\
    2 open 0\n\
    2 allocate 0 unit 00014B81800400060000\n\
    1 allocate 0\n\
    1 prepare turn 0\n\
    1 pace 11\n\
    1 take 0 unit 0001CF90000813000004\n\
    1 pace 11\n\
    1 Defer-turn mark none send 0 inbox 0 credit 3 open 2 waiting 0 expedited 0\n\
    2 Reset mark none send 0 inbox 0 credit 2 open 3 waiting 1 expedited 0\n";

const REFUSAL_12_IN_DEFER: [u8; 283] = *b"refusal_12_in_defer\n\
    ends 3 64 3 64 192 192\n\
    1 allocate\n\
    1 prepare end\n\
    1 read 64\n\
    =\n\
    1 open 0\n\
    2 open 0\n\
    1 allocate 0\n\
    1 prepare end 0\n\
    1 read 12\n\
    1 Defer-end mark none send 0 inbox 0 credit 3 open 3 waiting 0 expedited 0\n\
    2 Reset mark none send 0 inbox 0 credit 3 open 3 waiting 0 expedited 0\n";

const REFUSAL_26_IN_DEFER: [u8; 401] = *b"refusal_26_in_defer\n\
    ends 3 64 3 64 192 192\n\
    1 allocate\n\
    1 prepare turn\n\
    1 take 00010391000002\n\
    1 withdraw\n\
    1 prepare end\n\
    1 take 00010391000002\n\
    =\n\
    1 open 0\n\
    2 open 0\n\
    1 allocate 0\n\
    1 prepare turn 0\n\
    1 take 26 20040000\n\
    1 withdraw 0\n\
    1 prepare end 0\n\
    1 take 26 20040000\n\
    1 Defer-end mark none send 0 inbox 0 credit 3 open 3 waiting 0 expedited 0\n\
    2 Reset mark none send 0 inbox 0 credit 3 open 3 waiting 0 expedited 0\n";

// No confirmation is awaited before the turn or end is carried out.
const REFUSAL_28_IN_DEFER: [u8; 365] = *b"refusal_28_in_defer\n\
    ends 3 64 3 64 192 192\n\
    1 allocate\n\
    1 prepare turn\n\
    1 take 0000832000\n\
    1 confirm\n\
    1 take 0001832000\n\
    =\n\
    1 open 0\n\
    2 open 0\n\
    1 allocate 0\n\
    1 prepare turn 0\n\
    1 take 28 200E0000\n\
    1 confirm 0 unit 00010321A0\n\
    1 take 0\n\
    1 Receive mark none send 0 inbox 0 credit 2 open 3 waiting 0 expedited 0\n\
    2 Reset mark none send 0 inbox 0 credit 3 open 3 waiting 1 expedited 0\n";

// The case of that name; an unknown one is bad.
pub fn in_defer(name: &[u8]) -> bool {
    goes(name, &REFUSAL_6_IN_DEFER)
        | goes(name, &REFUSAL_7_IN_DEFER_TURN)
        | goes(name, &REFUSAL_7_IN_DEFER_END)
        | goes(name, &REFUSAL_7_PREPARE)
        | goes(name, &REFUSAL_7_WITHDRAW)
        | goes(name, &REFUSAL_9_PREPARE)
        | goes(name, &REFUSAL_9_PREPARE_AFTER_PART)
        | goes(name, &REFUSAL_10_IN_DEFER)
        | goes(name, &REFUSAL_11_IN_DEFER)
        | goes(name, &REFUSAL_12_IN_DEFER)
        | goes(name, &REFUSAL_26_IN_DEFER)
        | goes(name, &REFUSAL_28_IN_DEFER)
}
