// The faults that look right, the window, cuts, marks and the full inbox.
use crossing::named::goes;

const RECORD_OVER_UNITS: [u8; 528] = *b"record_over_units\n\
    ends 3 8 3 8 24 24\n\
    1 allocate\n\
    1 send 000E564953434F53\n\
    1 send 4954593D3436\n\
    1 end\n\
    2 take\n\
    2 read 24\n\
    2 read 24\n\
    2 take\n\
    2 read 24\n\
    2 read 24\n\
    =\n\
    1 open 0\n\
    2 open 0\n\
    1 allocate 0\n\
    1 send 0\n\
    1 send 0 unit 0001029180000E564953434F53\n\
    1 end 0 unit 00020190014954593D3436\n\
    2 take 0\n\
    2 read 0 bytes 000E564953434F53\n\
    2 read 12\n\
    2 take 0\n\
    2 read 0 bytes 4954593D3436 complete\n\
    2 read 0 mark end\n\
    1 Reset mark none send 0 inbox 0 credit 1 open 3 waiting 0 expedited 0\n\
    2 Reset mark none send 0 inbox 0 credit 3 open 1 waiting 0 expedited 0\n";

const TURN_AFTER_READING: [u8; 483] = *b"turn_after_reading\n\
    ends 3 64 3 64 192 192\n\
    1 allocate\n\
    1 send 0003AA\n\
    1 turn\n\
    2 take\n\
    2 send 0002\n\
    2 read 2\n\
    2 send 0002\n\
    2 read 2\n\
    2 send 0002\n\
    2 read 2\n\
    2 send 0002\n\
    =\n\
    1 open 0\n\
    2 open 0\n\
    1 allocate 0\n\
    1 send 0\n\
    1 turn 0 unit 00010391A00003AA\n\
    2 take 0\n\
    2 send 7\n\
    2 read 0 bytes 0003\n\
    2 send 7\n\
    2 read 0 bytes AA complete\n\
    2 send 7\n\
    2 read 0 mark turn\n\
    2 send 0\n\
    1 Receive mark none send 0 inbox 0 credit 2 open 3 waiting 0 expedited 0\n\
    2 Send mark none send 2 inbox 0 credit 3 open 2 waiting 0 expedited 0\n";

const BID_REFUSED_ONCE_ALLOCATED: [u8; 442] = *b"bid_refused_once_allocated\n\
    ends 3 64 3 64 192 192\n\
    2 allocate\n\
    1 allocate\n\
    1 take\n\
    2 take\n\
    1 turn\n\
    2 take\n\
    2 read 1\n\
    2 send 0002\n\
    =\n\
    1 open 0\n\
    2 open 0\n\
    2 allocate 0 unit 00014B81800400060000\n\
    1 allocate 0\n\
    1 take 0 unit 0001CF90000813000004\n\
    2 take 0\n\
    1 turn 0 unit 00010391A0\n\
    2 take 0\n\
    2 read 0 mark turn\n\
    2 send 0\n\
    1 Receive mark none send 0 inbox 0 credit 2 open 2 waiting 0 expedited 0\n\
    2 Send mark none send 2 inbox 0 credit 2 open 2 waiting 0 expedited 0\n";

const PACING_KEEPS_WHAT_WAS_LEFT: [u8; 733] = *b"pacing_keeps_what_was_left\n\
    ends 3 64 3 64 192 320\n\
    1 allocate\n\
    1 send 0002\n\
    1 flush\n\
    2 take\n\
    2 read 2\n\
    2 pace\n\
    1 take\n\
    1 send 0002\n\
    1 flush\n\
    1 send 0002\n\
    1 flush\n\
    1 send 0002\n\
    1 flush\n\
    1 send 0002\n\
    1 flush\n\
    1 send 0002\n\
    1 flush\n\
    1 send 0002\n\
    1 flush\n\
    =\n\
    1 open 0\n\
    2 open 0\n\
    1 allocate 0\n\
    1 send 0\n\
    1 flush 0 unit 00010391800002\n\
    2 take 0\n\
    2 read 0 bytes 0002 complete\n\
    2 pace 0 unit 0000830100\n\
    1 take 0\n\
    1 send 0\n\
    1 flush 0 unit 00020390000002\n\
    1 send 0\n\
    1 flush 0 unit 00030390000002\n\
    1 send 0\n\
    1 flush 0 unit 00040391000002\n\
    1 send 0\n\
    1 flush 0 unit 00050390000002\n\
    1 send 0\n\
    1 flush 0 unit 00060390000002\n\
    1 send 0\n\
    1 flush 10\n\
    1 Send mark none send 2 inbox 0 credit 0 open 3 waiting 0 expedited 0\n\
    2 Receive mark none send 0 inbox 0 credit 3 open 5 waiting 5 expedited 0\n";

const WINDOW_WRAP: [u8; 766] = *b"window_wrap\n\
    ends 2 8 2 8 16 24\n\
    1 allocate\n\
    1 send 0002\n\
    1 flush\n\
    2 take\n\
    2 read 8\n\
    2 pace\n\
    1 take\n\
    1 send 0002\n\
    1 flush\n\
    1 send 0002\n\
    1 flush\n\
    2 take\n\
    2 take\n\
    2 read 8\n\
    2 read 8\n\
    2 pace\n\
    1 take\n\
    1 send 0002\n\
    1 flush\n\
    2 take\n\
    2 read 8\n\
    =\n\
    1 open 0\n\
    2 open 0\n\
    1 allocate 0\n\
    1 send 0\n\
    1 flush 0 unit 00010391800002\n\
    2 take 0\n\
    2 read 0 bytes 0002 complete\n\
    2 pace 0 unit 0000830100\n\
    1 take 0\n\
    1 send 0\n\
    1 flush 0 unit 00020390000002\n\
    1 send 0\n\
    1 flush 0 unit 00030391000002\n\
    2 take 0\n\
    2 take 0\n\
    2 read 0 bytes 0002 complete\n\
    2 read 0 bytes 0002 complete\n\
    2 pace 0 unit 0000830100\n\
    1 take 0\n\
    1 send 0\n\
    1 flush 0 unit 00040390000002\n\
    2 take 0\n\
    2 read 0 bytes 0002 complete\n\
    1 Send mark none send 0 inbox 0 credit 2 open 2 waiting 0 expedited 0\n\
    2 Receive mark none send 0 inbox 0 credit 2 open 2 waiting 0 expedited 0\n";

const CUT_AFTER_BYTE_1: [u8; 469] = *b"cut_after_byte_1\n\
    ends 3 64 3 64 192 192\n\
    1 allocate\n\
    1 send 00\n\
    1 flush\n\
    1 send 05414243\n\
    1 end\n\
    2 take\n\
    2 take\n\
    2 read 64\n\
    2 read 64\n\
    2 read 64\n\
    =\n\
    1 open 0\n\
    2 open 0\n\
    1 allocate 0\n\
    1 send 0\n\
    1 flush 0 unit 000103918000\n\
    1 send 0\n\
    1 end 0 unit 000203900105414243\n\
    2 take 0\n\
    2 take 0\n\
    2 read 0 bytes 0005414243 complete\n\
    2 read 0 mark end\n\
    2 read 12\n\
    1 Reset mark none send 0 inbox 0 credit 1 open 3 waiting 0 expedited 0\n\
    2 Reset mark none send 0 inbox 0 credit 3 open 1 waiting 0 expedited 0\n";

const CUT_AFTER_BYTE_2: [u8; 475] = *b"cut_after_byte_2\n\
    ends 3 64 3 64 192 192\n\
    1 allocate\n\
    1 send 0005\n\
    1 flush\n\
    1 send 414243\n\
    1 end\n\
    2 take\n\
    2 read 64\n\
    2 take\n\
    2 read 64\n\
    2 read 64\n\
    =\n\
    1 open 0\n\
    2 open 0\n\
    1 allocate 0\n\
    1 send 0\n\
    1 flush 0 unit 00010391800005\n\
    1 send 0\n\
    1 end 0 unit 0002039001414243\n\
    2 take 0\n\
    2 read 0 bytes 0005\n\
    2 take 0\n\
    2 read 0 bytes 414243 complete\n\
    2 read 0 mark end\n\
    1 Reset mark none send 0 inbox 0 credit 1 open 3 waiting 0 expedited 0\n\
    2 Reset mark none send 0 inbox 0 credit 3 open 1 waiting 0 expedited 0\n";

const CUT_AFTER_BYTE_3: [u8; 475] = *b"cut_after_byte_3\n\
    ends 3 64 3 64 192 192\n\
    1 allocate\n\
    1 send 000541\n\
    1 flush\n\
    1 send 4243\n\
    1 end\n\
    2 take\n\
    2 read 64\n\
    2 take\n\
    2 read 64\n\
    2 read 64\n\
    =\n\
    1 open 0\n\
    2 open 0\n\
    1 allocate 0\n\
    1 send 0\n\
    1 flush 0 unit 0001039180000541\n\
    1 send 0\n\
    1 end 0 unit 00020390014243\n\
    2 take 0\n\
    2 read 0 bytes 000541\n\
    2 take 0\n\
    2 read 0 bytes 4243 complete\n\
    2 read 0 mark end\n\
    1 Reset mark none send 0 inbox 0 credit 1 open 3 waiting 0 expedited 0\n\
    2 Reset mark none send 0 inbox 0 credit 3 open 1 waiting 0 expedited 0\n";

const CUT_AT_BYTE_1_BY_READS: [u8; 462] = *b"cut_at_byte_1_by_reads\n\
    ends 3 64 3 64 192 192\n\
    1 allocate\n\
    1 send 0005414243\n\
    1 end\n\
    2 take\n\
    2 read 1\n\
    2 read 1\n\
    2 read 1\n\
    2 read 64\n\
    2 read 1\n\
    =\n\
    1 open 0\n\
    2 open 0\n\
    1 allocate 0\n\
    1 send 0\n\
    1 end 0 unit 00010391810005414243\n\
    2 take 0\n\
    2 read 0 bytes 00\n\
    2 read 0 bytes 05\n\
    2 read 0 bytes 41\n\
    2 read 0 bytes 4243 complete\n\
    2 read 0 mark end\n\
    1 Reset mark none send 0 inbox 0 credit 2 open 3 waiting 0 expedited 0\n\
    2 Reset mark none send 0 inbox 0 credit 3 open 2 waiting 0 expedited 0\n";

const MARK_TURN: [u8; 378] = *b"mark_turn\n\
    ends 3 64 3 64 192 192\n\
    1 allocate\n\
    1 send 0002\n\
    1 turn\n\
    2 take\n\
    2 read 9\n\
    2 read 9\n\
    2 read 9\n\
    =\n\
    1 open 0\n\
    2 open 0\n\
    1 allocate 0\n\
    1 send 0\n\
    1 turn 0 unit 00010391A00002\n\
    2 take 0\n\
    2 read 0 bytes 0002 complete\n\
    2 read 0 mark turn\n\
    2 read 12\n\
    1 Receive mark none send 0 inbox 0 credit 2 open 3 waiting 0 expedited 0\n\
    2 Send mark none send 0 inbox 0 credit 3 open 2 waiting 0 expedited 0\n";

const MARK_END: [u8; 373] = *b"mark_end\n\
    ends 3 64 3 64 192 192\n\
    1 allocate\n\
    1 send 0002\n\
    1 end\n\
    2 take\n\
    2 read 9\n\
    2 read 9\n\
    2 read 9\n\
    =\n\
    1 open 0\n\
    2 open 0\n\
    1 allocate 0\n\
    1 send 0\n\
    1 end 0 unit 00010391810002\n\
    2 take 0\n\
    2 read 0 bytes 0002 complete\n\
    2 read 0 mark end\n\
    2 read 12\n\
    1 Reset mark none send 0 inbox 0 credit 2 open 3 waiting 0 expedited 0\n\
    2 Reset mark none send 0 inbox 0 credit 3 open 2 waiting 0 expedited 0\n";

const MARK_CONFIRM: [u8; 448] = *b"mark_confirm\n\
    ends 3 64 3 64 192 192\n\
    1 allocate\n\
    1 send 0002\n\
    1 confirm\n\
    2 take\n\
    2 read 9\n\
    2 read 9\n\
    2 read 9\n\
    2 confirmed\n\
    1 take\n\
    =\n\
    1 open 0\n\
    2 open 0\n\
    1 allocate 0\n\
    1 send 0\n\
    1 confirm 0 unit 00010321800002\n\
    2 take 0\n\
    2 read 0 bytes 0002 complete\n\
    2 read 0 mark confirm\n\
    2 read 12\n\
    2 confirmed 0 unit 0001832000\n\
    1 take 0\n\
    1 Send mark none send 0 inbox 0 credit 2 open 3 waiting 0 expedited 0\n\
    2 Receive mark none send 0 inbox 0 credit 3 open 2 waiting 0 expedited 0\n";

const MARK_CONFIRM_TURN: [u8; 468] = *b"mark_confirm_turn\n\
    ends 3 64 3 64 192 192\n\
    1 allocate\n\
    1 send 0002\n\
    1 turn confirm\n\
    2 take\n\
    2 read 9\n\
    2 read 9\n\
    2 read 9\n\
    2 confirmed\n\
    1 take\n\
    =\n\
    1 open 0\n\
    2 open 0\n\
    1 allocate 0\n\
    1 send 0\n\
    1 turn confirm 0 unit 00010321A00002\n\
    2 take 0\n\
    2 read 0 bytes 0002 complete\n\
    2 read 0 mark confirm-turn\n\
    2 read 12\n\
    2 confirmed 0 unit 0001832000\n\
    1 take 0\n\
    1 Receive mark none send 0 inbox 0 credit 2 open 3 waiting 0 expedited 0\n\
    2 Send mark none send 0 inbox 0 credit 3 open 2 waiting 0 expedited 0\n";

const MARK_CONFIRM_END: [u8; 463] = *b"mark_confirm_end\n\
    ends 3 64 3 64 192 192\n\
    1 allocate\n\
    1 send 0002\n\
    1 end confirm\n\
    2 take\n\
    2 read 9\n\
    2 read 9\n\
    2 read 9\n\
    2 confirmed\n\
    1 take\n\
    =\n\
    1 open 0\n\
    2 open 0\n\
    1 allocate 0\n\
    1 send 0\n\
    1 end confirm 0 unit 00010321810002\n\
    2 take 0\n\
    2 read 0 bytes 0002 complete\n\
    2 read 0 mark confirm-end\n\
    2 read 12\n\
    2 confirmed 0 unit 0001832000\n\
    1 take 0\n\
    1 Reset mark none send 0 inbox 0 credit 2 open 3 waiting 0 expedited 0\n\
    2 Reset mark none send 0 inbox 0 credit 3 open 2 waiting 0 expedited 0\n";

const INBOX_FULL: [u8; 705] = *b"inbox_full\n\
    ends 2 8 1 8 8 16\n\
    1 allocate\n\
    1 send 0012303132333435\n\
    1 send 3637383941424344\n\
    1 send 4546\n\
    2 take\n\
    2 take\n\
    2 read 1\n\
    2 pace\n\
    2 read 14\n\
    2 pace\n\
    2 read 1\n\
    2 pace\n\
    1 take\n\
    1 end\n\
    2 take\n\
    2 read 16\n\
    2 read 16\n\
    =\n\
    1 open 0\n\
    2 open 0\n\
    1 allocate 0\n\
    1 send 0\n\
    1 send 0 unit 00010291800012303132333435\n\
    1 send 0 unit 00020090003637383941424344\n\
    2 take 0\n\
    2 take 0\n\
    2 read 0 bytes 00\n\
    2 pace 11\n\
    2 read 0 bytes 1230313233343536373839414243\n\
    2 pace 11\n\
    2 read 0 bytes 44\n\
    2 pace 0 unit 0000830100\n\
    1 take 0\n\
    1 end 0 unit 00030191014546\n\
    2 take 0\n\
    2 read 0 bytes 4546 complete\n\
    2 read 0 mark end\n\
    1 Reset mark none send 0 inbox 0 credit 1 open 1 waiting 0 expedited 0\n\
    2 Reset mark none send 0 inbox 0 credit 1 open 1 waiting 0 expedited 0\n";

// The case of that name; an unknown one is bad.
pub fn conversations(name: &[u8]) -> bool {
    goes(name, &RECORD_OVER_UNITS)
        | goes(name, &TURN_AFTER_READING)
        | goes(name, &BID_REFUSED_ONCE_ALLOCATED)
        | goes(name, &PACING_KEEPS_WHAT_WAS_LEFT)
        | goes(name, &WINDOW_WRAP)
        | goes(name, &CUT_AFTER_BYTE_1)
        | goes(name, &CUT_AFTER_BYTE_2)
        | goes(name, &CUT_AFTER_BYTE_3)
        | goes(name, &CUT_AT_BYTE_1_BY_READS)
        | goes(name, &MARK_TURN)
        | goes(name, &MARK_END)
        | goes(name, &MARK_CONFIRM)
        | goes(name, &MARK_CONFIRM_TURN)
        | goes(name, &MARK_CONFIRM_END)
        | goes(name, &INBOX_FULL)
}
