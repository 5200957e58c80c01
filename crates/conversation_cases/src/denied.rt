// A confirmation that is denied, and the error header that says why.
use crossing::named::goes;

const DENIED_STAY: [u8; 537] = *b"denied_stay\n\
    ends 3 64 3 64 192 192\n\
    1 allocate\n\
    1 send 0005414243\n\
    1 confirm\n\
    2 take\n\
    2 read 9\n\
    2 read 9\n\
    2 deny\n\
    2 flush\n\
    1 take\n\
    1 take\n\
    1 read 9\n\
    =\n\
    1 open 0\n\
    2 open 0\n\
    1 allocate 0\n\
    1 send 0\n\
    1 confirm 0 unit 00010321800005414243\n\
    2 take 0\n\
    2 read 0 bytes 0005414243 complete\n\
    2 read 0 mark confirm\n\
    2 deny 0 unit 000187300008460000\n\
    2 flush 0 unit 00010B910007070889000000\n\
    1 take 0\n\
    1 take 0\n\
    1 read 0 mark error\n\
    1 Receive mark none send 0 inbox 0 credit 2 open 2 waiting 0 expedited 0\n\
    2 Send mark none send 0 inbox 0 credit 2 open 2 waiting 0 expedited 0\n";

// Send and Receive, as if no turn was to follow.
const DENIED_TURN: [u8; 552] = *b"denied_turn\n\
    ends 3 64 3 64 192 192\n\
    1 allocate\n\
    1 send 0005414243\n\
    1 turn confirm\n\
    2 take\n\
    2 read 9\n\
    2 read 9\n\
    2 deny\n\
    2 flush\n\
    1 take\n\
    1 take\n\
    1 read 9\n\
    =\n\
    1 open 0\n\
    2 open 0\n\
    1 allocate 0\n\
    1 send 0\n\
    1 turn confirm 0 unit 00010321A00005414243\n\
    2 take 0\n\
    2 read 0 bytes 0005414243 complete\n\
    2 read 0 mark confirm-turn\n\
    2 deny 0 unit 000187300008460000\n\
    2 flush 0 unit 00010B910007070889000000\n\
    1 take 0\n\
    1 take 0\n\
    1 read 0 mark error\n\
    1 Receive mark none send 0 inbox 0 credit 2 open 2 waiting 0 expedited 0\n\
    2 Send mark none send 0 inbox 0 credit 2 open 2 waiting 0 expedited 0\n";

// The conversation goes on, and the refuser may end it.
const DENIED_END: [u8; 620] = *b"denied_end\n\
    ends 3 64 3 64 192 192\n\
    1 allocate\n\
    1 send 0005414243\n\
    1 end confirm\n\
    2 take\n\
    2 read 9\n\
    2 read 9\n\
    2 deny\n\
    2 flush\n\
    1 take\n\
    1 take\n\
    1 read 9\n\
    2 end\n\
    1 take\n\
    1 read 9\n\
    =\n\
    1 open 0\n\
    2 open 0\n\
    1 allocate 0\n\
    1 send 0\n\
    1 end confirm 0 unit 00010321810005414243\n\
    2 take 0\n\
    2 read 0 bytes 0005414243 complete\n\
    2 read 0 mark confirm-end\n\
    2 deny 0 unit 000187300008460000\n\
    2 flush 0 unit 00010B910007070889000000\n\
    1 take 0\n\
    1 take 0\n\
    1 read 0 mark error\n\
    2 end 0 unit 0002039001\n\
    1 take 0\n\
    1 read 0 mark end\n\
    1 Reset mark none send 0 inbox 0 credit 2 open 1 waiting 0 expedited 0\n\
    2 Reset mark none send 0 inbox 0 credit 1 open 2 waiting 0 expedited 0\n";

// BB is long gone: the first speaker that refuses is within the conversation.
const DENIED_BY_FIRST_SPEAKER: [u8; 719] = *b"denied_by_first_speaker\n\
    ends 3 64 3 64 192 192\n\
    2 allocate\n\
    1 take\n\
    2 take\n\
    2 send 0002\n\
    2 end confirm\n\
    1 take\n\
    1 read 9\n\
    1 read 9\n\
    1 deny\n\
    1 flush\n\
    2 take\n\
    2 take\n\
    2 read 9\n\
    1 turn\n\
    2 take\n\
    2 read 9\n\
    2 allocate\n\
    =\n\
    1 open 0\n\
    2 open 0\n\
    2 allocate 0 unit 00014B81800400060000\n\
    1 take 0 unit 0001CB800004\n\
    2 take 0\n\
    2 send 0\n\
    2 end confirm 0 unit 00020320010002\n\
    1 take 0\n\
    1 read 0 bytes 0002 complete\n\
    1 read 0 mark confirm-end\n\
    1 deny 0 unit 000287300008460000\n\
    1 flush 0 unit 00010B910007070889000000\n\
    2 take 0\n\
    2 take 0\n\
    2 read 0 mark error\n\
    1 turn 0 unit 0002039020\n\
    2 take 0\n\
    2 read 0 mark turn\n\
    2 allocate 7\n\
    1 Receive mark none send 0 inbox 0 credit 1 open 1 waiting 0 expedited 0\n\
    2 Send mark none send 0 inbox 0 credit 1 open 1 waiting 0 expedited 0\n";

// What was prepared is gone with the confirm that carried it out. The error is due still, and the denied end is in Receive with no mark.
const DENIED_PREPARED_END: [u8; 447] = *b"denied_prepared_end\n\
    ends 3 64 3 64 192 192\n\
    1 allocate\n\
    1 prepare end\n\
    1 confirm\n\
    2 take\n\
    2 read 9\n\
    2 deny\n\
    1 take\n\
    1 withdraw\n\
    1 flush\n\
    =\n\
    1 open 0\n\
    2 open 0\n\
    1 allocate 0\n\
    1 prepare end 0\n\
    1 confirm 0 unit 0001032181\n\
    2 take 0\n\
    2 read 0 mark confirm-end\n\
    2 deny 0 unit 000187300008460000\n\
    1 take 0\n\
    1 withdraw 7\n\
    1 flush 7\n\
    1 Receive mark none send 0 inbox 0 credit 2 open 3 waiting 0 expedited 0\n\
    2 Send mark none send 0 inbox 0 credit 3 open 2 waiting 0 expedited 0\n";

// The error header waits on the line; its mark is not there before its take.
const DENIED_ERROR_ON_THE_LINE: [u8; 424] = *b"denied_error_on_the_line\n\
    ends 3 64 3 64 192 192\n\
    1 allocate\n\
    1 confirm\n\
    2 take\n\
    2 read 9\n\
    2 deny\n\
    2 flush\n\
    1 take\n\
    =\n\
    1 open 0\n\
    2 open 0\n\
    1 allocate 0\n\
    1 confirm 0 unit 0001032180\n\
    2 take 0\n\
    2 read 0 mark confirm\n\
    2 deny 0 unit 000187300008460000\n\
    2 flush 0 unit 00010B910007070889000000\n\
    1 take 0\n\
    1 Receive mark none send 0 inbox 0 credit 2 open 3 waiting 1 expedited 0\n\
    2 Send mark none send 0 inbox 0 credit 2 open 2 waiting 0 expedited 0\n";

const DENIED_ERROR_UNREAD: [u8; 436] = *b"denied_error_unread\n\
    ends 3 64 3 64 192 192\n\
    1 allocate\n\
    1 confirm\n\
    2 take\n\
    2 read 9\n\
    2 deny\n\
    2 flush\n\
    1 take\n\
    1 take\n\
    =\n\
    1 open 0\n\
    2 open 0\n\
    1 allocate 0\n\
    1 confirm 0 unit 0001032180\n\
    2 take 0\n\
    2 read 0 mark confirm\n\
    2 deny 0 unit 000187300008460000\n\
    2 flush 0 unit 00010B910007070889000000\n\
    1 take 0\n\
    1 take 0\n\
    1 Receive mark error send 0 inbox 0 credit 2 open 2 waiting 0 expedited 0\n\
    2 Send mark none send 0 inbox 0 credit 2 open 2 waiting 0 expedited 0\n";

// The number is that of the unit that asked for the confirmation, the last of the chain.
const DENIED_CARD_OF_TWO_UNITS: [u8; 628] = *b"denied_card_of_two_units\n\
    ends 3 8 3 8 24 24\n\
    1 allocate\n\
    1 send 000A313233343536\n\
    1 send 3738\n\
    1 confirm\n\
    2 take\n\
    2 take\n\
    2 read 24\n\
    2 read 24\n\
    2 deny\n\
    2 flush\n\
    1 take\n\
    1 take\n\
    1 read 24\n\
    =\n\
    1 open 0\n\
    2 open 0\n\
    1 allocate 0\n\
    1 send 0\n\
    1 send 0 unit 0001029180000A313233343536\n\
    1 confirm 0 unit 00020120003738\n\
    2 take 0\n\
    2 take 0\n\
    2 read 0 bytes 000A3132333435363738 complete\n\
    2 read 0 mark confirm\n\
    2 deny 0 unit 000287300008460000\n\
    2 flush 0 unit 00010B910007070889000000\n\
    1 take 0\n\
    1 take 0\n\
    1 read 0 mark error\n\
    1 Receive mark none send 0 inbox 0 credit 1 open 2 waiting 0 expedited 0\n\
    2 Send mark none send 0 inbox 0 credit 2 open 1 waiting 0 expedited 0\n";

// The refuser says more behind the error header, and gives the turn; the card is sent again.
const DENIED_AND_SENT_AGAIN: [u8; 970] = *b"denied_and_sent_again\n\
    ends 3 64 3 64 192 192\n\
    1 allocate\n\
    1 send 0005414243\n\
    1 confirm\n\
    2 take\n\
    2 read 9\n\
    2 read 9\n\
    2 deny\n\
    2 flush\n\
    2 send 000401\n\
    2 send 02\n\
    2 turn\n\
    1 take\n\
    1 take\n\
    1 read 9\n\
    1 take\n\
    1 read 9\n\
    1 read 9\n\
    1 send 0005414244\n\
    1 confirm\n\
    2 take\n\
    2 read 9\n\
    2 read 9\n\
    2 confirmed\n\
    1 take\n\
    1 end\n\
    =\n\
    1 open 0\n\
    2 open 0\n\
    1 allocate 0\n\
    1 send 0\n\
    1 confirm 0 unit 00010321800005414243\n\
    2 take 0\n\
    2 read 0 bytes 0005414243 complete\n\
    2 read 0 mark confirm\n\
    2 deny 0 unit 000187300008460000\n\
    2 flush 0 unit 00010B910007070889000000\n\
    2 send 0\n\
    2 send 0\n\
    2 turn 0 unit 000203902000040102\n\
    1 take 0\n\
    1 take 0\n\
    1 read 0 mark error\n\
    1 take 0\n\
    1 read 0 bytes 00040102 complete\n\
    1 read 0 mark turn\n\
    1 send 0\n\
    1 confirm 0 unit 00020320000005414244\n\
    2 take 0\n\
    2 read 0 bytes 0005414244 complete\n\
    2 read 0 mark confirm\n\
    2 confirmed 0 unit 0002832000\n\
    1 take 0\n\
    1 end 0 unit 0003039001\n\
    1 Reset mark none send 0 inbox 0 credit 0 open 1 waiting 0 expedited 0\n\
    2 Receive mark none send 0 inbox 0 credit 1 open 1 waiting 1 expedited 0\n";

// The end that was denied denies in its turn.
const DENIED_TWICE: [u8; 706] = *b"denied_twice\n\
    ends 3 64 3 64 192 192\n\
    1 allocate\n\
    1 confirm\n\
    2 take\n\
    2 read 9\n\
    2 deny\n\
    2 flush\n\
    2 turn confirm\n\
    1 take\n\
    1 take\n\
    1 read 9\n\
    1 take\n\
    1 read 9\n\
    1 deny\n\
    1 flush\n\
    2 take\n\
    2 take\n\
    2 read 9\n\
    =\n\
    1 open 0\n\
    2 open 0\n\
    1 allocate 0\n\
    1 confirm 0 unit 0001032180\n\
    2 take 0\n\
    2 read 0 mark confirm\n\
    2 deny 0 unit 000187300008460000\n\
    2 flush 0 unit 00010B910007070889000000\n\
    2 turn confirm 0 unit 0002032020\n\
    1 take 0\n\
    1 take 0\n\
    1 read 0 mark error\n\
    1 take 0\n\
    1 read 0 mark confirm-turn\n\
    1 deny 0 unit 000287300008460000\n\
    1 flush 0 unit 00020B900007070889000000\n\
    2 take 0\n\
    2 take 0\n\
    2 read 0 mark error\n\
    1 Send mark none send 0 inbox 0 credit 1 open 1 waiting 0 expedited 0\n\
    2 Receive mark none send 0 inbox 0 credit 1 open 1 waiting 0 expedited 0\n";

// The bid crossed the unit that asks for the confirmation. Its refusal leaves the error due.
const BID_REFUSAL_TAKEN_WITH_ERROR_DUE: [u8; 585] = *b"bid_refusal_taken_with_error_due\n\
    ends 3 64 3 64 192 192\n\
    2 allocate\n\
    1 allocate\n\
    1 confirm\n\
    1 take\n\
    2 take\n\
    2 read 9\n\
    2 deny\n\
    2 take\n\
    2 flush\n\
    1 take\n\
    1 take\n\
    1 read 9\n\
    =\n\
    1 open 0\n\
    2 open 0\n\
    2 allocate 0 unit 00014B81800400060000\n\
    1 allocate 0\n\
    1 confirm 0 unit 0001032180\n\
    1 take 0 unit 0001CF90000813000004\n\
    2 take 0\n\
    2 read 0 mark confirm\n\
    2 deny 0 unit 000187300008460000\n\
    2 take 0\n\
    2 flush 0 unit 00020B900007070889000000\n\
    1 take 0\n\
    1 take 0\n\
    1 read 0 mark error\n\
    1 Receive mark none send 0 inbox 0 credit 2 open 1 waiting 0 expedited 0\n\
    2 Send mark none send 0 inbox 0 credit 1 open 2 waiting 0 expedited 0\n";

// A bid is refused in any state but Reset.
const FORGED_BID_WITH_ERROR_DUE: [u8; 546] = *b"forged_bid_with_error_due\n\
    ends 3 64 3 64 192 192\n\
    2 allocate\n\
    1 take\n\
    2 take\n\
    2 confirm\n\
    1 take\n\
    1 read 9\n\
    1 deny\n\
    1 take 00034B80800400060000\n\
    1 flush\n\
    =\n\
    1 open 0\n\
    2 open 0\n\
    2 allocate 0 unit 00014B81800400060000\n\
    1 take 0 unit 0001CB800004\n\
    2 take 0\n\
    2 confirm 0 unit 0002032000\n\
    1 take 0\n\
    1 read 0 mark confirm\n\
    1 deny 0 unit 000287300008460000\n\
    1 take 0 unit 0003CF90000813000004\n\
    1 flush 0 unit 00010B910007070889000000\n\
    1 Send mark none send 0 inbox 0 credit 2 open 0 waiting 0 expedited 0\n\
    2 Waits mark none send 0 inbox 0 credit 1 open 3 waiting 3 expedited 0\n";

// The bytes before it are read first.
const ERROR_MARK_BEHIND_BYTES: [u8; 452] = *b"error_mark_behind_bytes\n\
    ends 3 64 3 64 192 192\n\
    2 take 00010391800005414243\n\
    2 take 00020B900007070889000000\n\
    2 take 00030390000002\n\
    2 read 3\n\
    2 read 64\n\
    2 read 64\n\
    2 take 00030390000002\n\
    =\n\
    1 open 0\n\
    2 open 0\n\
    2 take 0\n\
    2 take 0\n\
    2 take 13\n\
    2 read 0 bytes 000541\n\
    2 read 0 bytes 4243 complete\n\
    2 read 0 mark error\n\
    2 take 0\n\
    1 Reset mark none send 0 inbox 0 credit 3 open 3 waiting 0 expedited 0\n\
    2 Receive mark none send 0 inbox 2 credit 3 open 0 waiting 0 expedited 0\n";

// The case of that name; an unknown one is bad.
pub fn denied(name: &[u8]) -> bool {
    goes(name, &DENIED_STAY)
        | goes(name, &DENIED_TURN)
        | goes(name, &DENIED_END)
        | goes(name, &DENIED_BY_FIRST_SPEAKER)
        | goes(name, &DENIED_PREPARED_END)
        | goes(name, &DENIED_ERROR_ON_THE_LINE)
        | goes(name, &DENIED_ERROR_UNREAD)
        | goes(name, &DENIED_CARD_OF_TWO_UNITS)
        | goes(name, &DENIED_AND_SENT_AGAIN)
        | goes(name, &DENIED_TWICE)
        | goes(name, &BID_REFUSAL_TAKEN_WITH_ERROR_DUE)
        | goes(name, &FORGED_BID_WITH_ERROR_DUE)
        | goes(name, &ERROR_MARK_BEHIND_BYTES)
}
