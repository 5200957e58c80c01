// The turn asked for by a signal, and the answer to it.
use crossing::named::goes;

// The second goes when the answer to the first is taken, under the next number.
const SIGNALS_ONE_AFTER_ANOTHER: [u8; 691] = *b"signals_one_after_another\n\
    ends 3 64 3 64 192 192\n\
    1 allocate\n\
    1 send 0005414243\n\
    1 flush\n\
    2 take\n\
    2 request\n\
    1 take expedited\n\
    2 take expedited\n\
    2 request\n\
    1 take expedited\n\
    1 take expedited\n\
    2 take expedited\n\
    2 take expedited\n\
    =\n\
    1 open 0\n\
    2 open 0\n\
    1 allocate 0\n\
    1 send 0\n\
    1 flush 0 unit 00010391800005414243\n\
    2 take 0\n\
    2 request 0 unit 00014B8000C900010000\n\
    1 take expedited 0 unit 0001CB8000C9 signalled\n\
    2 take expedited 0\n\
    2 request 0 unit 00024B8000C900010000\n\
    1 take expedited 0 unit 0002CB8000C9 signalled\n\
    1 take expedited -\n\
    2 take expedited 0\n\
    2 take expedited -\n\
    1 Send mark none send 0 inbox 0 credit 2 open 3 waiting 0 expedited 0\n\
    2 Receive mark none send 0 inbox 5 credit 3 open 2 waiting 0 expedited 0\n";

// The far end takes it in Waits. No state changes.
const SIGNAL_IN_OWES: [u8; 516] = *b"signal_in_owes\n\
    ends 3 64 3 64 192 192\n\
    1 allocate\n\
    1 confirm\n\
    2 take\n\
    2 read 9\n\
    2 request\n\
    1 take expedited\n\
    2 confirmed\n\
    2 take expedited\n\
    1 take\n\
    =\n\
    1 open 0\n\
    2 open 0\n\
    1 allocate 0\n\
    1 confirm 0 unit 0001032180\n\
    2 take 0\n\
    2 read 0 mark confirm\n\
    2 request 0 unit 00014B8000C900010000\n\
    1 take expedited 0 unit 0001CB8000C9 signalled\n\
    2 confirmed 0 unit 0001832000\n\
    2 take expedited 0\n\
    1 take 0\n\
    1 Send mark none send 0 inbox 0 credit 2 open 3 waiting 0 expedited 0\n\
    2 Receive mark none send 0 inbox 0 credit 3 open 2 waiting 0 expedited 0\n";

// Receive with a mark is Receive. The answer is taken in Send.
const SIGNAL_WITH_MARK_UNREAD: [u8; 458] = *b"signal_with_mark_unread\n\
    ends 3 64 3 64 192 192\n\
    1 allocate\n\
    1 turn\n\
    2 take\n\
    2 request\n\
    2 read 9\n\
    1 take expedited\n\
    2 take expedited\n\
    =\n\
    1 open 0\n\
    2 open 0\n\
    1 allocate 0\n\
    1 turn 0 unit 00010391A0\n\
    2 take 0\n\
    2 request 0 unit 00014B8000C900010000\n\
    2 read 0 mark turn\n\
    1 take expedited 0 unit 0001CB8000C9 signalled\n\
    2 take expedited 0\n\
    1 Receive mark none send 0 inbox 0 credit 2 open 3 waiting 0 expedited 0\n\
    2 Send mark none send 0 inbox 0 credit 3 open 2 waiting 0 expedited 0\n";

// A mark keeps normal units on their line, and no expedited ones.
const SIGNAL_TAKEN_UNDER_MARK: [u8; 599] = *b"signal_taken_under_mark\n\
    ends 3 64 3 64 384 384\n\
    1 allocate\n\
    1 turn\n\
    2 take\n\
    2 request\n\
    2 read 9\n\
    2 turn\n\
    2 pace\n\
    1 take\n\
    1 take\n\
    1 take expedited\n\
    1 read 9\n\
    1 take\n\
    2 take expedited\n\
    =\n\
    1 open 0\n\
    2 open 0\n\
    1 allocate 0\n\
    1 turn 0 unit 00010391A0\n\
    2 take 0\n\
    2 request 0 unit 00014B8000C900010000\n\
    2 read 0 mark turn\n\
    2 turn 0 unit 0001039120\n\
    2 pace 0 unit 0000830100\n\
    1 take 0\n\
    1 take 13\n\
    1 take expedited 0 unit 0001CB8000C9 signalled\n\
    1 read 0 mark turn\n\
    1 take 0\n\
    2 take expedited 0\n\
    1 Send mark none send 0 inbox 0 credit 5 open 2 waiting 0 expedited 0\n\
    2 Receive mark none send 0 inbox 0 credit 2 open 5 waiting 0 expedited 0\n";

// Each answer waits behind a signal.
const SIGNALS_CROSS: [u8; 682] = *b"signals_cross\n\
    ends 3 64 3 64 192 192\n\
    1 allocate\n\
    1 send 0002\n\
    1 flush\n\
    2 take\n\
    1 turn\n\
    1 request\n\
    2 request\n\
    1 take expedited\n\
    2 take expedited\n\
    2 take expedited\n\
    1 take expedited\n\
    1 take expedited\n\
    2 take\n\
    =\n\
    1 open 0\n\
    2 open 0\n\
    1 allocate 0\n\
    1 send 0\n\
    1 flush 0 unit 00010391800002\n\
    2 take 0\n\
    1 turn 0 unit 0002039020\n\
    1 request 0 unit 00014B8000C900010000\n\
    2 request 0 unit 00014B8000C900010000\n\
    1 take expedited 0 unit 0001CB8000C9 signalled\n\
    2 take expedited 0 unit 0001CB8000C9 signalled\n\
    2 take expedited 0\n\
    1 take expedited 0\n\
    1 take expedited -\n\
    2 take 0\n\
    1 Receive mark none send 0 inbox 0 credit 1 open 3 waiting 0 expedited 0\n\
    2 Receive mark turn send 0 inbox 2 credit 3 open 1 waiting 0 expedited 0\n";

// No credit is asked and none is spent; the bidder takes it in Reset.
const SIGNAL_OVERTAKES_TURN: [u8; 429] = *b"signal_overtakes_turn\n\
    ends 1 64 1 64 64 64\n\
    1 allocate\n\
    1 turn\n\
    1 request\n\
    2 take expedited\n\
    2 take\n\
    1 take expedited\n\
    =\n\
    1 open 0\n\
    2 open 0\n\
    1 allocate 0\n\
    1 turn 0 unit 00010391A0\n\
    1 request 0 unit 00014B8000C900010000\n\
    2 take expedited 0 unit 0001CB8000C9 signalled\n\
    2 take 0\n\
    1 take expedited 0\n\
    1 Receive mark none send 0 inbox 0 credit 0 open 1 waiting 0 expedited 0\n\
    2 Receive mark turn send 0 inbox 0 credit 1 open 0 waiting 0 expedited 0\n";

// Reset, Send, both kinds of Defer, Waits; Receive with a mark, Owes.
const SIGNAL_TAKEN_IN_EVERY_STATE: [u8; 1026] = *b"signal_taken_in_every_state\n\
    ends 3 64 3 64 192 192\n\
    1 take expedited 00014B8000C900010000\n\
    1 allocate\n\
    1 take expedited 00024B8000C900010000\n\
    1 prepare turn\n\
    1 take expedited 00034B8000C900010000\n\
    1 withdraw\n\
    1 prepare end\n\
    1 take expedited 00044B8000C900010000\n\
    1 withdraw\n\
    1 confirm\n\
    1 take expedited 00054B8000C900010000\n\
    2 take\n\
    2 take expedited 00014B8000C900010000\n\
    2 read 9\n\
    2 take expedited 00024B8000C900010000\n\
    =\n\
    1 open 0\n\
    2 open 0\n\
    1 take expedited 0 unit 0001CB8000C9 signalled\n\
    1 allocate 0\n\
    1 take expedited 0 unit 0002CB8000C9 signalled\n\
    1 prepare turn 0\n\
    1 take expedited 0 unit 0003CB8000C9 signalled\n\
    1 withdraw 0\n\
    1 prepare end 0\n\
    1 take expedited 0 unit 0004CB8000C9 signalled\n\
    1 withdraw 0\n\
    1 confirm 0 unit 0001032180\n\
    1 take expedited 0 unit 0005CB8000C9 signalled\n\
    2 take 0\n\
    2 take expedited 0 unit 0001CB8000C9 signalled\n\
    2 read 0 mark confirm\n\
    2 take expedited 0 unit 0002CB8000C9 signalled\n\
    1 Waits mark none send 0 inbox 0 credit 2 open 3 waiting 0 expedited 2\n\
    2 Owes mark none send 0 inbox 0 credit 3 open 2 waiting 0 expedited 5\n";

// The answer clears the flag where no signal may be made.
const SIGNAL_ANSWERED_IN_DEFER: [u8; 546] = *b"signal_answered_in_defer\n\
    ends 3 64 3 64 192 192\n\
    1 allocate\n\
    1 turn\n\
    2 take\n\
    2 request\n\
    1 take expedited\n\
    2 read 9\n\
    2 prepare end\n\
    2 request\n\
    2 take expedited\n\
    2 flush\n\
    =\n\
    1 open 0\n\
    2 open 0\n\
    1 allocate 0\n\
    1 turn 0 unit 00010391A0\n\
    2 take 0\n\
    2 request 0 unit 00014B8000C900010000\n\
    1 take expedited 0 unit 0001CB8000C9 signalled\n\
    2 read 0 mark turn\n\
    2 prepare end 0\n\
    2 request 7\n\
    2 take expedited 0\n\
    2 flush 0 unit 0001039101\n\
    1 Receive mark none send 0 inbox 0 credit 2 open 3 waiting 1 expedited 0\n\
    2 Reset mark none send 0 inbox 0 credit 2 open 2 waiting 0 expedited 0\n";

// It is unanswered still when the next one has begun.
const SIGNAL_OUTLIVES_CONVERSATION: [u8; 750] = *b"signal_outlives_conversation\n\
    ends 3 64 3 64 192 192\n\
    1 allocate\n\
    1 send 0002\n\
    1 flush\n\
    2 take\n\
    2 request\n\
    1 end\n\
    2 take\n\
    2 read 9\n\
    2 read 9\n\
    2 request\n\
    1 allocate\n\
    1 turn\n\
    2 take\n\
    2 request\n\
    1 take expedited\n\
    2 take expedited\n\
    2 request\n\
    =\n\
    1 open 0\n\
    2 open 0\n\
    1 allocate 0\n\
    1 send 0\n\
    1 flush 0 unit 00010391800002\n\
    2 take 0\n\
    2 request 0 unit 00014B8000C900010000\n\
    1 end 0 unit 0002039001\n\
    2 take 0\n\
    2 read 0 bytes 0002 complete\n\
    2 read 0 mark end\n\
    2 request 7\n\
    1 allocate 0\n\
    1 turn 0 unit 00030390A0\n\
    2 take 0\n\
    2 request 30 00000000\n\
    1 take expedited 0 unit 0001CB8000C9 signalled\n\
    2 take expedited 0\n\
    2 request 0 unit 00024B8000C900010000\n\
    1 Receive mark none send 0 inbox 0 credit 0 open 3 waiting 0 expedited 1\n\
    2 Receive mark turn send 0 inbox 0 credit 3 open 0 waiting 0 expedited 0\n";

// The answer is taken while an error is due; the error mark does not keep the other end from a signal.
const SIGNAL_BEFORE_DENIAL: [u8; 719] = *b"signal_before_denial\n\
    ends 3 64 3 64 192 192\n\
    1 allocate\n\
    1 confirm\n\
    2 take\n\
    2 read 9\n\
    2 request\n\
    2 deny\n\
    2 request\n\
    1 take expedited\n\
    2 take expedited\n\
    2 flush\n\
    1 take\n\
    1 take\n\
    1 request\n\
    2 take expedited\n\
    =\n\
    1 open 0\n\
    2 open 0\n\
    1 allocate 0\n\
    1 confirm 0 unit 0001032180\n\
    2 take 0\n\
    2 read 0 mark confirm\n\
    2 request 0 unit 00014B8000C900010000\n\
    2 deny 0 unit 000187300008460000\n\
    2 request 7\n\
    1 take expedited 0 unit 0001CB8000C9 signalled\n\
    2 take expedited 0\n\
    2 flush 0 unit 00010B910007070889000000\n\
    1 take 0\n\
    1 take 0\n\
    1 request 0 unit 00014B8000C900010000\n\
    2 take expedited 0 unit 0001CB8000C9 signalled\n\
    1 Receive mark error send 0 inbox 0 credit 2 open 2 waiting 0 expedited 1\n\
    2 Send mark none send 0 inbox 0 credit 2 open 2 waiting 0 expedited 0\n";

// The case of that name; an unknown one is bad.
pub fn signals(name: &[u8]) -> bool {
    goes(name, &SIGNALS_ONE_AFTER_ANOTHER)
        | goes(name, &SIGNAL_IN_OWES)
        | goes(name, &SIGNAL_WITH_MARK_UNREAD)
        | goes(name, &SIGNAL_TAKEN_UNDER_MARK)
        | goes(name, &SIGNALS_CROSS)
        | goes(name, &SIGNAL_OVERTAKES_TURN)
        | goes(name, &SIGNAL_TAKEN_IN_EVERY_STATE)
        | goes(name, &SIGNAL_ANSWERED_IN_DEFER)
        | goes(name, &SIGNAL_OUTLIVES_CONVERSATION)
        | goes(name, &SIGNAL_BEFORE_DENIAL)
}
