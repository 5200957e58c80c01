// A turn or an end that is prepared: carried out by flush and by confirm, withdrawn, and met by a bid.
use crossing::named::goes;

const PREPARED_TURN: [u8; 397] = *b"prepared_turn\n\
    ends 3 64 3 64 192 192\n\
    1 allocate\n\
    1 send 0002\n\
    1 prepare turn\n\
    1 flush\n\
    2 take\n\
    2 read 9\n\
    2 read 9\n\
    =\n\
    1 open 0\n\
    2 open 0\n\
    1 allocate 0\n\
    1 send 0\n\
    1 prepare turn 0\n\
    1 flush 0 unit 00010391A00002\n\
    2 take 0\n\
    2 read 0 bytes 0002 complete\n\
    2 read 0 mark turn\n\
    1 Receive mark none send 0 inbox 0 credit 2 open 3 waiting 0 expedited 0\n\
    2 Send mark none send 0 inbox 0 credit 3 open 2 waiting 0 expedited 0\n";

const PREPARED_END: [u8; 392] = *b"prepared_end\n\
    ends 3 64 3 64 192 192\n\
    1 allocate\n\
    1 send 0002\n\
    1 prepare end\n\
    1 flush\n\
    2 take\n\
    2 read 9\n\
    2 read 9\n\
    =\n\
    1 open 0\n\
    2 open 0\n\
    1 allocate 0\n\
    1 send 0\n\
    1 prepare end 0\n\
    1 flush 0 unit 00010391810002\n\
    2 take 0\n\
    2 read 0 bytes 0002 complete\n\
    2 read 0 mark end\n\
    1 Reset mark none send 0 inbox 0 credit 2 open 3 waiting 0 expedited 0\n\
    2 Reset mark none send 0 inbox 0 credit 3 open 2 waiting 0 expedited 0\n";

const PREPARED_CONFIRM_TURN: [u8; 517] = *b"prepared_confirm_turn\n\
    ends 3 64 3 64 192 192\n\
    1 allocate\n\
    1 send 0002\n\
    1 prepare turn\n\
    1 confirm\n\
    1 withdraw\n\
    1 flush\n\
    2 take\n\
    2 read 9\n\
    2 read 9\n\
    2 confirmed\n\
    1 take\n\
    =\n\
    1 open 0\n\
    2 open 0\n\
    1 allocate 0\n\
    1 send 0\n\
    1 prepare turn 0\n\
    1 confirm 0 unit 00010321A00002\n\
    1 withdraw 7\n\
    1 flush 7\n\
    2 take 0\n\
    2 read 0 bytes 0002 complete\n\
    2 read 0 mark confirm-turn\n\
    2 confirmed 0 unit 0001832000\n\
    1 take 0\n\
    1 Receive mark none send 0 inbox 0 credit 2 open 3 waiting 0 expedited 0\n\
    2 Send mark none send 0 inbox 0 credit 3 open 2 waiting 0 expedited 0\n";

const PREPARED_CONFIRM_END: [u8; 512] = *b"prepared_confirm_end\n\
    ends 3 64 3 64 192 192\n\
    1 allocate\n\
    1 send 0002\n\
    1 prepare end\n\
    1 confirm\n\
    1 withdraw\n\
    1 flush\n\
    2 take\n\
    2 read 9\n\
    2 read 9\n\
    2 confirmed\n\
    1 take\n\
    =\n\
    1 open 0\n\
    2 open 0\n\
    1 allocate 0\n\
    1 send 0\n\
    1 prepare end 0\n\
    1 confirm 0 unit 00010321810002\n\
    1 withdraw 7\n\
    1 flush 7\n\
    2 take 0\n\
    2 read 0 bytes 0002 complete\n\
    2 read 0 mark confirm-end\n\
    2 confirmed 0 unit 0001832000\n\
    1 take 0\n\
    1 Reset mark none send 0 inbox 0 credit 2 open 3 waiting 0 expedited 0\n\
    2 Reset mark none send 0 inbox 0 credit 3 open 2 waiting 0 expedited 0\n";

// The confirmation is on the line and not yet taken.
const PREPARED_CONFIRM_WAITS: [u8; 393] = *b"prepared_confirm_waits\n\
    ends 3 64 3 64 192 192\n\
    1 allocate\n\
    1 prepare end\n\
    1 confirm\n\
    2 take\n\
    2 read 9\n\
    2 confirmed\n\
    =\n\
    1 open 0\n\
    2 open 0\n\
    1 allocate 0\n\
    1 prepare end 0\n\
    1 confirm 0 unit 0001032181\n\
    2 take 0\n\
    2 read 0 mark confirm-end\n\
    2 confirmed 0 unit 0001832000\n\
    1 Waits mark none send 0 inbox 0 credit 2 open 3 waiting 1 expedited 0\n\
    2 Reset mark none send 0 inbox 0 credit 3 open 2 waiting 0 expedited 0\n";

// No unit is made, and the bytes are held still.
const PREPARED_ONLY_NOTED: [u8; 309] = *b"prepared_only_noted\n\
    ends 3 64 3 64 192 192\n\
    1 allocate\n\
    1 send 0005414243\n\
    1 prepare turn\n\
    2 take\n\
    =\n\
    1 open 0\n\
    2 open 0\n\
    1 allocate 0\n\
    1 send 0\n\
    1 prepare turn 0\n\
    2 take -\n\
    1 Defer-turn mark none send 5 inbox 0 credit 3 open 3 waiting 0 expedited 0\n\
    2 Reset mark none send 0 inbox 0 credit 3 open 3 waiting 0 expedited 0\n";

const PREPARED_BY_BIDDER: [u8; 383] = *b"prepared_by_bidder\n\
    ends 3 64 3 64 192 192\n\
    2 allocate\n\
    1 take\n\
    2 take\n\
    2 send 0005414243\n\
    2 prepare end\n\
    1 take\n\
    =\n\
    1 open 0\n\
    2 open 0\n\
    2 allocate 0 unit 00014B81800400060000\n\
    1 take 0 unit 0001CB800004\n\
    2 take 0\n\
    2 send 0\n\
    2 prepare end 0\n\
    1 take -\n\
    1 Receive mark none send 0 inbox 0 credit 3 open 2 waiting 0 expedited 0\n\
    2 Defer-end mark none send 5 inbox 0 credit 2 open 3 waiting 0 expedited 0\n";

// A flush in Defer makes a unit though no byte is held, and so does a confirm.
const PREPARED_NOTHING_HELD: [u8; 518] = *b"prepared_nothing_held\n\
    ends 3 64 3 64 192 192\n\
    1 allocate\n\
    1 prepare turn\n\
    1 flush\n\
    2 take\n\
    2 read 9\n\
    2 prepare end\n\
    2 confirm\n\
    1 take\n\
    1 read 9\n\
    1 confirmed\n\
    2 take\n\
    =\n\
    1 open 0\n\
    2 open 0\n\
    1 allocate 0\n\
    1 prepare turn 0\n\
    1 flush 0 unit 00010391A0\n\
    2 take 0\n\
    2 read 0 mark turn\n\
    2 prepare end 0\n\
    2 confirm 0 unit 0001032101\n\
    1 take 0\n\
    1 read 0 mark confirm-end\n\
    1 confirmed 0 unit 0001832000\n\
    2 take 0\n\
    1 Reset mark none send 0 inbox 0 credit 2 open 2 waiting 0 expedited 0\n\
    2 Reset mark none send 0 inbox 0 credit 2 open 2 waiting 0 expedited 0\n";

const PREPARED_IN_CHAIN: [u8; 492] = *b"prepared_in_chain\n\
    ends 3 8 3 8 24 24\n\
    1 allocate\n\
    1 send 000A313233343536\n\
    1 send 3738\n\
    1 prepare end\n\
    1 flush\n\
    2 take\n\
    2 take\n\
    2 read 24\n\
    2 read 24\n\
    =\n\
    1 open 0\n\
    2 open 0\n\
    1 allocate 0\n\
    1 send 0\n\
    1 send 0 unit 0001029180000A313233343536\n\
    1 prepare end 0\n\
    1 flush 0 unit 00020190013738\n\
    2 take 0\n\
    2 take 0\n\
    2 read 0 bytes 000A3132333435363738 complete\n\
    2 read 0 mark end\n\
    1 Reset mark none send 0 inbox 0 credit 1 open 3 waiting 0 expedited 0\n\
    2 Reset mark none send 0 inbox 0 credit 3 open 1 waiting 0 expedited 0\n";

const PREPARE_WITHDRAW_SEND: [u8; 651] = *b"prepare_withdraw_send\n\
    ends 3 64 3 64 192 192\n\
    1 allocate\n\
    1 send 0003AA\n\
    1 prepare turn\n\
    1 send 0002\n\
    1 withdraw\n\
    1 send 0002\n\
    1 prepare end\n\
    1 withdraw\n\
    1 flush\n\
    1 prepare end\n\
    1 flush\n\
    2 take\n\
    2 read 9\n\
    2 read 9\n\
    2 take\n\
    2 read 9\n\
    =\n\
    1 open 0\n\
    2 open 0\n\
    1 allocate 0\n\
    1 send 0\n\
    1 prepare turn 0\n\
    1 send 7\n\
    1 withdraw 0\n\
    1 send 0\n\
    1 prepare end 0\n\
    1 withdraw 0\n\
    1 flush 0 unit 00010391800003AA0002\n\
    1 prepare end 0\n\
    1 flush 0 unit 0002039001\n\
    2 take 0\n\
    2 read 0 bytes 0003AA complete\n\
    2 read 0 bytes 0002 complete\n\
    2 take 0\n\
    2 read 0 mark end\n\
    1 Reset mark none send 0 inbox 0 credit 1 open 3 waiting 0 expedited 0\n\
    2 Reset mark none send 0 inbox 0 credit 3 open 1 waiting 0 expedited 0\n";

// The turn stays prepared until there is credit for its unit.
const PREPARE_PACING_FLUSH: [u8; 607] = *b"prepare_pacing_flush\n\
    ends 1 8 1 8 8 8\n\
    1 allocate\n\
    1 send 0002\n\
    1 flush\n\
    1 send 0003BB\n\
    1 prepare turn\n\
    1 flush\n\
    1 confirm\n\
    2 take\n\
    2 read 8\n\
    2 pace\n\
    1 take\n\
    1 flush\n\
    2 take\n\
    2 read 8\n\
    2 read 8\n\
    =\n\
    1 open 0\n\
    2 open 0\n\
    1 allocate 0\n\
    1 send 0\n\
    1 flush 0 unit 00010391800002\n\
    1 send 0\n\
    1 prepare turn 0\n\
    1 flush 10\n\
    1 confirm 10\n\
    2 take 0\n\
    2 read 0 bytes 0002 complete\n\
    2 pace 0 unit 0000830100\n\
    1 take 0\n\
    1 flush 0 unit 00020391200003BB\n\
    2 take 0\n\
    2 read 0 bytes 0003BB complete\n\
    2 read 0 mark turn\n\
    1 Receive mark none send 0 inbox 0 credit 0 open 1 waiting 0 expedited 0\n\
    2 Send mark none send 0 inbox 0 credit 1 open 0 waiting 0 expedited 0\n";

// The bid's pacing bit is answered in Defer too: end 1 has room for more than a window.
const BID_REFUSED_IN_DEFER: [u8; 514] = *b"bid_refused_in_defer\n\
    ends 3 8 3 8 48 24\n\
    2 allocate\n\
    1 allocate\n\
    1 prepare turn\n\
    1 take\n\
    1 pace\n\
    2 take\n\
    2 take\n\
    1 flush\n\
    2 take\n\
    2 read 8\n\
    2 send 0002\n\
    =\n\
    1 open 0\n\
    2 open 0\n\
    2 allocate 0 unit 00014B81800400060000\n\
    1 allocate 0\n\
    1 prepare turn 0\n\
    1 take 0 unit 0001CF90000813000004\n\
    1 pace 0 unit 0000830100\n\
    2 take 0\n\
    2 take 0\n\
    1 flush 0 unit 00010391A0\n\
    2 take 0\n\
    2 read 0 mark turn\n\
    2 send 0\n\
    1 Receive mark none send 0 inbox 0 credit 2 open 5 waiting 0 expedited 0\n\
    2 Send mark none send 2 inbox 0 credit 5 open 2 waiting 0 expedited 0\n";

const BID_GRANTED_AFTER_PREPARED_END: [u8; 619] = *b"bid_granted_after_prepared_end\n\
    ends 3 64 3 64 192 192\n\
    2 allocate\n\
    1 allocate\n\
    1 send 0002\n\
    1 prepare end\n\
    1 take\n\
    1 flush\n\
    2 take\n\
    2 take\n\
    2 read 9\n\
    2 read 9\n\
    2 allocate\n\
    1 take\n\
    2 take\n\
    =\n\
    1 open 0\n\
    2 open 0\n\
    2 allocate 0 unit 00014B81800400060000\n\
    1 allocate 0\n\
    1 send 0\n\
    1 prepare end 0\n\
    1 take 0 unit 0001CF90000813000004\n\
    1 flush 0 unit 00010391810002\n\
    2 take 0\n\
    2 take 0\n\
    2 read 0 bytes 0002 complete\n\
    2 read 0 mark end\n\
    2 allocate 0 unit 00024B80800400060000\n\
    1 take 0 unit 0002CB800004\n\
    2 take 0\n\
    1 Receive mark none send 0 inbox 0 credit 2 open 1 waiting 0 expedited 0\n\
    2 Send mark none send 0 inbox 0 credit 1 open 2 waiting 0 expedited 0\n";

// The case of that name; an unknown one is bad.
pub fn prepared(name: &[u8]) -> bool {
    goes(name, &PREPARED_TURN)
        | goes(name, &PREPARED_END)
        | goes(name, &PREPARED_CONFIRM_TURN)
        | goes(name, &PREPARED_CONFIRM_END)
        | goes(name, &PREPARED_CONFIRM_WAITS)
        | goes(name, &PREPARED_ONLY_NOTED)
        | goes(name, &PREPARED_BY_BIDDER)
        | goes(name, &PREPARED_NOTHING_HELD)
        | goes(name, &PREPARED_IN_CHAIN)
        | goes(name, &PREPARE_WITHDRAW_SEND)
        | goes(name, &PREPARE_PACING_FLUSH)
        | goes(name, &BID_REFUSED_IN_DEFER)
        | goes(name, &BID_GRANTED_AFTER_PREPARED_END)
}
