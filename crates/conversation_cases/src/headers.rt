// Every kind of header, made at one end and taken at the other.
use crossing::named::goes;

const HEADER_BID: [u8; 297] = *b"header_bid\n\
    ends 3 64 3 64 192 192\n\
    2 allocate\n\
    1 take\n\
    2 take\n\
    =\n\
    1 open 0\n\
    2 open 0\n\
    2 allocate 0 unit 00014B81800400060000\n\
    1 take 0 unit 0001CB800004\n\
    2 take 0\n\
    1 Receive mark none send 0 inbox 0 credit 3 open 2 waiting 0 expedited 0\n\
    2 Send mark none send 0 inbox 0 credit 2 open 3 waiting 0 expedited 0\n";

const HEADER_BID_WITHIN_WINDOW: [u8; 484] = *b"header_bid_within_window\n\
    ends 3 64 3 64 192 192\n\
    1 allocate\n\
    1 turn\n\
    2 take\n\
    2 read 1\n\
    2 end\n\
    2 allocate\n\
    1 take\n\
    1 read 1\n\
    1 take\n\
    2 take\n\
    =\n\
    1 open 0\n\
    2 open 0\n\
    1 allocate 0\n\
    1 turn 0 unit 00010391A0\n\
    2 take 0\n\
    2 read 0 mark turn\n\
    2 end 0 unit 0001039101\n\
    2 allocate 0 unit 00024B80800400060000\n\
    1 take 0\n\
    1 read 0 mark end\n\
    1 take 0 unit 0002CB800004\n\
    2 take 0\n\
    1 Receive mark none send 0 inbox 0 credit 2 open 1 waiting 0 expedited 0\n\
    2 Send mark none send 0 inbox 0 credit 1 open 2 waiting 0 expedited 0\n";

const HEADER_BID_REFUSAL: [u8; 385] = *b"header_bid_refusal\n\
    ends 3 64 3 64 192 192\n\
    2 allocate\n\
    1 allocate\n\
    1 take\n\
    2 take\n\
    2 allocate\n\
    =\n\
    1 open 0\n\
    2 open 0\n\
    2 allocate 0 unit 00014B81800400060000\n\
    1 allocate 0\n\
    1 take 0 unit 0001CF90000813000004\n\
    2 take 0\n\
    2 allocate 0 unit 00024B80800400060000\n\
    1 Send mark none send 0 inbox 0 credit 3 open 2 waiting 1 expedited 0\n\
    2 Reset mark none send 0 inbox 0 credit 1 open 3 waiting 0 expedited 0\n";

const HEADER_CONFIRMATION: [u8; 404] = *b"header_confirmation\n\
    ends 3 64 3 64 192 192\n\
    1 allocate\n\
    1 confirm\n\
    2 take\n\
    2 read 1\n\
    2 confirmed\n\
    1 take\n\
    1 end\n\
    =\n\
    1 open 0\n\
    2 open 0\n\
    1 allocate 0\n\
    1 confirm 0 unit 0001032180\n\
    2 take 0\n\
    2 read 0 mark confirm\n\
    2 confirmed 0 unit 0001832000\n\
    1 take 0\n\
    1 end 0 unit 0002039001\n\
    1 Reset mark none send 0 inbox 0 credit 1 open 3 waiting 0 expedited 0\n\
    2 Receive mark none send 0 inbox 0 credit 3 open 2 waiting 1 expedited 0\n";

const HEADER_NEGATIVE_CONFIRMATION: [u8; 380] = *b"header_negative_confirmation\n\
    ends 3 64 3 64 192 192\n\
    1 allocate\n\
    1 confirm\n\
    2 take\n\
    2 read 1\n\
    2 deny\n\
    1 take\n\
    =\n\
    1 open 0\n\
    2 open 0\n\
    1 allocate 0\n\
    1 confirm 0 unit 0001032180\n\
    2 take 0\n\
    2 read 0 mark confirm\n\
    2 deny 0 unit 000187300008460000\n\
    1 take 0\n\
    1 Receive mark none send 0 inbox 0 credit 2 open 3 waiting 0 expedited 0\n\
    2 Send mark none send 0 inbox 0 credit 3 open 2 waiting 0 expedited 0\n";

const HEADER_ERROR: [u8; 457] = *b"header_error\n\
    ends 3 64 3 64 192 192\n\
    1 allocate\n\
    1 confirm\n\
    2 take\n\
    2 read 1\n\
    2 deny\n\
    2 flush\n\
    1 take\n\
    1 take\n\
    1 read 1\n\
    =\n\
    1 open 0\n\
    2 open 0\n\
    1 allocate 0\n\
    1 confirm 0 unit 0001032180\n\
    2 take 0\n\
    2 read 0 mark confirm\n\
    2 deny 0 unit 000187300008460000\n\
    2 flush 0 unit 00010B910007070889000000\n\
    1 take 0\n\
    1 take 0\n\
    1 read 0 mark error\n\
    1 Receive mark none send 0 inbox 0 credit 2 open 2 waiting 0 expedited 0\n\
    2 Send mark none send 0 inbox 0 credit 2 open 2 waiting 0 expedited 0\n";

const HEADER_ERROR_WITHIN_WINDOW: [u8; 623] = *b"header_error_within_window\n\
    ends 3 64 3 64 192 192\n\
    1 allocate\n\
    1 turn\n\
    2 take\n\
    2 read 1\n\
    2 turn\n\
    1 take\n\
    1 read 1\n\
    1 confirm\n\
    2 take\n\
    2 read 1\n\
    2 deny\n\
    2 flush\n\
    1 take\n\
    1 take\n\
    1 read 1\n\
    =\n\
    1 open 0\n\
    2 open 0\n\
    1 allocate 0\n\
    1 turn 0 unit 00010391A0\n\
    2 take 0\n\
    2 read 0 mark turn\n\
    2 turn 0 unit 0001039120\n\
    1 take 0\n\
    1 read 0 mark turn\n\
    1 confirm 0 unit 0002032000\n\
    2 take 0\n\
    2 read 0 mark confirm\n\
    2 deny 0 unit 000287300008460000\n\
    2 flush 0 unit 00020B900007070889000000\n\
    1 take 0\n\
    1 take 0\n\
    1 read 0 mark error\n\
    1 Receive mark none send 0 inbox 0 credit 1 open 1 waiting 0 expedited 0\n\
    2 Send mark none send 0 inbox 0 credit 1 open 1 waiting 0 expedited 0\n";

const HEADER_PACING_RESPONSE: [u8; 394] = *b"header_pacing_response\n\
    ends 3 64 3 64 192 320\n\
    1 allocate\n\
    1 send 0002\n\
    1 flush\n\
    2 take\n\
    2 read 2\n\
    2 pace\n\
    1 take\n\
    =\n\
    1 open 0\n\
    2 open 0\n\
    1 allocate 0\n\
    1 send 0\n\
    1 flush 0 unit 00010391800002\n\
    2 take 0\n\
    2 read 0 bytes 0002 complete\n\
    2 pace 0 unit 0000830100\n\
    1 take 0\n\
    1 Send mark none send 0 inbox 0 credit 5 open 3 waiting 0 expedited 0\n\
    2 Receive mark none send 0 inbox 0 credit 3 open 5 waiting 0 expedited 0\n";

const HEADER_DATA_ALONE: [u8; 378] = *b"header_data_alone\n\
    ends 3 64 3 64 192 192\n\
    1 allocate\n\
    1 send 0002\n\
    1 flush\n\
    1 send 0002\n\
    1 flush\n\
    2 take\n\
    2 take\n\
    =\n\
    1 open 0\n\
    2 open 0\n\
    1 allocate 0\n\
    1 send 0\n\
    1 flush 0 unit 00010391800002\n\
    1 send 0\n\
    1 flush 0 unit 00020390000002\n\
    2 take 0\n\
    2 take 0\n\
    1 Send mark none send 0 inbox 0 credit 1 open 3 waiting 0 expedited 0\n\
    2 Receive mark none send 0 inbox 4 credit 3 open 1 waiting 0 expedited 0\n";

const HEADER_DATA_IN_CHAIN: [u8; 652] = *b"header_data_in_chain\n\
    ends 7 8 7 8 56 56\n\
    1 allocate\n\
    1 send 001A616263646566\n\
    1 send 6768696A6B6C6D6E\n\
    1 send 6F70717273747576\n\
    1 send 7778\n\
    1 flush\n\
    2 take\n\
    2 take\n\
    2 take\n\
    2 take\n\
    2 read 56\n\
    2 read 56\n\
    =\n\
    1 open 0\n\
    2 open 0\n\
    1 allocate 0\n\
    1 send 0\n\
    1 send 0 unit 0001029180001A616263646566\n\
    1 send 0 unit 00020090006768696A6B6C6D6E\n\
    1 send 0 unit 00030090006F70717273747576\n\
    1 flush 0 unit 00040190007778\n\
    2 take 0\n\
    2 take 0\n\
    2 take 0\n\
    2 take 0\n\
    2 read 0 bytes 001A6162636465666768696A6B6C6D6E6F707172737475767778 complete\n\
    2 read 12\n\
    1 Send mark none send 0 inbox 0 credit 3 open 7 waiting 0 expedited 0\n\
    2 Receive mark none send 0 inbox 0 credit 7 open 3 waiting 0 expedited 0\n";

const HEADER_TURN: [u8; 374] = *b"header_turn\n\
    ends 3 64 3 64 192 192\n\
    1 allocate\n\
    1 turn\n\
    2 take\n\
    2 read 1\n\
    2 turn\n\
    1 take\n\
    1 read 1\n\
    =\n\
    1 open 0\n\
    2 open 0\n\
    1 allocate 0\n\
    1 turn 0 unit 00010391A0\n\
    2 take 0\n\
    2 read 0 mark turn\n\
    2 turn 0 unit 0001039120\n\
    1 take 0\n\
    1 read 0 mark turn\n\
    1 Send mark none send 0 inbox 0 credit 2 open 2 waiting 0 expedited 0\n\
    2 Receive mark none send 0 inbox 0 credit 2 open 2 waiting 0 expedited 0\n";

const HEADER_END: [u8; 406] = *b"header_end\n\
    ends 3 64 3 64 192 192\n\
    1 allocate\n\
    1 send 0002\n\
    1 flush\n\
    1 end\n\
    2 take\n\
    2 take\n\
    2 read 2\n\
    2 read 2\n\
    =\n\
    1 open 0\n\
    2 open 0\n\
    1 allocate 0\n\
    1 send 0\n\
    1 flush 0 unit 00010391800002\n\
    1 end 0 unit 0002039001\n\
    2 take 0\n\
    2 take 0\n\
    2 read 0 bytes 0002 complete\n\
    2 read 0 mark end\n\
    1 Reset mark none send 0 inbox 0 credit 1 open 3 waiting 0 expedited 0\n\
    2 Reset mark none send 0 inbox 0 credit 3 open 1 waiting 0 expedited 0\n";

const HEADER_END_AT_ONCE: [u8; 301] = *b"header_end_at_once\n\
    ends 3 64 3 64 192 192\n\
    1 allocate\n\
    1 end\n\
    2 take\n\
    2 read 2\n\
    =\n\
    1 open 0\n\
    2 open 0\n\
    1 allocate 0\n\
    1 end 0 unit 0001039181\n\
    2 take 0\n\
    2 read 0 mark end\n\
    1 Reset mark none send 0 inbox 0 credit 2 open 3 waiting 0 expedited 0\n\
    2 Reset mark none send 0 inbox 0 credit 3 open 2 waiting 0 expedited 0\n";

const HEADER_CONFIRM: [u8; 481] = *b"header_confirm\n\
    ends 3 64 3 64 192 192\n\
    1 allocate\n\
    1 send 0002\n\
    1 flush\n\
    1 confirm\n\
    2 take\n\
    2 take\n\
    2 read 2\n\
    2 read 2\n\
    2 confirmed\n\
    1 take\n\
    =\n\
    1 open 0\n\
    2 open 0\n\
    1 allocate 0\n\
    1 send 0\n\
    1 flush 0 unit 00010391800002\n\
    1 confirm 0 unit 0002032000\n\
    2 take 0\n\
    2 take 0\n\
    2 read 0 bytes 0002 complete\n\
    2 read 0 mark confirm\n\
    2 confirmed 0 unit 0002832000\n\
    1 take 0\n\
    1 Send mark none send 0 inbox 0 credit 1 open 3 waiting 0 expedited 0\n\
    2 Receive mark none send 0 inbox 0 credit 3 open 1 waiting 0 expedited 0\n";

const HEADER_TURN_CONFIRM: [u8; 546] = *b"header_turn_confirm\n\
    ends 3 64 3 64 192 192\n\
    1 allocate\n\
    1 turn confirm\n\
    2 take\n\
    2 read 1\n\
    2 confirmed\n\
    2 turn confirm\n\
    1 take\n\
    1 take\n\
    1 read 1\n\
    1 confirmed\n\
    2 take\n\
    =\n\
    1 open 0\n\
    2 open 0\n\
    1 allocate 0\n\
    1 turn confirm 0 unit 00010321A0\n\
    2 take 0\n\
    2 read 0 mark confirm-turn\n\
    2 confirmed 0 unit 0001832000\n\
    2 turn confirm 0 unit 0001032120\n\
    1 take 0\n\
    1 take 0\n\
    1 read 0 mark confirm-turn\n\
    1 confirmed 0 unit 0001832000\n\
    2 take 0\n\
    1 Send mark none send 0 inbox 0 credit 2 open 2 waiting 0 expedited 0\n\
    2 Receive mark none send 0 inbox 0 credit 2 open 2 waiting 0 expedited 0\n";

const HEADER_END_CONFIRM: [u8; 553] = *b"header_end_confirm\n\
    ends 3 64 3 64 192 192\n\
    1 allocate\n\
    1 end confirm\n\
    2 take\n\
    2 read 1\n\
    2 confirmed\n\
    1 take\n\
    1 allocate\n\
    1 send 0002\n\
    1 flush\n\
    1 end confirm\n\
    2 take\n\
    2 take\n\
    =\n\
    1 open 0\n\
    2 open 0\n\
    1 allocate 0\n\
    1 end confirm 0 unit 0001032181\n\
    2 take 0\n\
    2 read 0 mark confirm-end\n\
    2 confirmed 0 unit 0001832000\n\
    1 take 0\n\
    1 allocate 0\n\
    1 send 0\n\
    1 flush 0 unit 00020390800002\n\
    1 end confirm 0 unit 0003032001\n\
    2 take 0\n\
    2 take 0\n\
    1 Waits mark none send 0 inbox 0 credit 0 open 3 waiting 0 expedited 0\n\
    2 Receive mark confirm-end send 0 inbox 2 credit 3 open 0 waiting 0 expedited 0\n";

// The case of that name; an unknown one is bad.
pub fn headers(name: &[u8]) -> bool {
    goes(name, &HEADER_BID)
        | goes(name, &HEADER_BID_WITHIN_WINDOW)
        | goes(name, &HEADER_BID_REFUSAL)
        | goes(name, &HEADER_CONFIRMATION)
        | goes(name, &HEADER_NEGATIVE_CONFIRMATION)
        | goes(name, &HEADER_ERROR)
        | goes(name, &HEADER_ERROR_WITHIN_WINDOW)
        | goes(name, &HEADER_PACING_RESPONSE)
        | goes(name, &HEADER_DATA_ALONE)
        | goes(name, &HEADER_DATA_IN_CHAIN)
        | goes(name, &HEADER_TURN)
        | goes(name, &HEADER_END)
        | goes(name, &HEADER_END_AT_ONCE)
        | goes(name, &HEADER_CONFIRM)
        | goes(name, &HEADER_TURN_CONFIRM)
        | goes(name, &HEADER_END_CONFIRM)
}
