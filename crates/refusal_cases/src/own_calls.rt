// Calls refused for what the program asks, 6 to 13.
use crossing::named::goes;

const REFUSAL_6_NO_BYTE: [u8; 242] = *b"refusal_6_no_byte\n\
    ends 3 64 3 64 192 192\n\
    1 allocate\n\
    1 send\n\
    =\n\
    1 open 0\n\
    2 open 0\n\
    1 allocate 0\n\
    1 send 6\n\
    1 Send mark none send 0 inbox 0 credit 3 open 3 waiting 0 expedited 0\n\
    2 Reset mark none send 0 inbox 0 credit 3 open 3 waiting 0 expedited 0\n";

const REFUSAL_6_ABOVE_MAXIMUM: [u8; 263] = *b"refusal_6_above_maximum\n\
    ends 3 8 3 8 24 24\n\
    1 allocate\n\
    1 send 000931323334353637\n\
    =\n\
    1 open 0\n\
    2 open 0\n\
    1 allocate 0\n\
    1 send 6\n\
    1 Send mark none send 0 inbox 0 credit 3 open 3 waiting 0 expedited 0\n\
    2 Reset mark none send 0 inbox 0 credit 3 open 3 waiting 0 expedited 0\n";

const REFUSAL_6_NO_CELL: [u8; 221] = *b"refusal_6_no_cell\n\
    ends 3 64 3 64 192 192\n\
    1 read 0\n\
    =\n\
    1 open 0\n\
    2 open 0\n\
    1 read 6\n\
    1 Reset mark none send 0 inbox 0 credit 3 open 3 waiting 0 expedited 0\n\
    2 Reset mark none send 0 inbox 0 credit 3 open 3 waiting 0 expedited 0\n";

const REFUSAL_7_IN_RESET: [u8; 321] = *b"refusal_7_in_reset\n\
    ends 3 64 3 64 192 192\n\
    1 send 0002\n\
    1 flush\n\
    1 confirm\n\
    1 turn\n\
    1 end\n\
    1 confirmed\n\
    =\n\
    1 open 0\n\
    2 open 0\n\
    1 send 7\n\
    1 flush 7\n\
    1 confirm 7\n\
    1 turn 7\n\
    1 end 7\n\
    1 confirmed 7\n\
    1 Reset mark none send 0 inbox 0 credit 3 open 3 waiting 0 expedited 0\n\
    2 Reset mark none send 0 inbox 0 credit 3 open 3 waiting 0 expedited 0\n";

const REFUSAL_7_IN_SEND: [u8; 276] = *b"refusal_7_in_send\n\
    ends 3 64 3 64 192 192\n\
    1 allocate\n\
    1 allocate\n\
    1 confirmed\n\
    =\n\
    1 open 0\n\
    2 open 0\n\
    1 allocate 0\n\
    1 allocate 7\n\
    1 confirmed 7\n\
    1 Send mark none send 0 inbox 0 credit 3 open 3 waiting 0 expedited 0\n\
    2 Reset mark none send 0 inbox 0 credit 3 open 3 waiting 0 expedited 0\n";

const REFUSAL_7_BID_UNANSWERED: [u8; 284] = *b"refusal_7_bid_unanswered\n\
    ends 3 64 3 64 192 192\n\
    2 allocate\n\
    2 allocate\n\
    =\n\
    1 open 0\n\
    2 open 0\n\
    2 allocate 0 unit 00014B81800400060000\n\
    2 allocate 7\n\
    1 Reset mark none send 0 inbox 0 credit 3 open 3 waiting 1 expedited 0\n\
    2 Reset mark none send 0 inbox 0 credit 2 open 3 waiting 0 expedited 0\n";

const REFUSAL_8_LENGTH_1: [u8; 304] = *b"refusal_8_length_1\n\
    ends 3 64 3 64 192 192\n\
    1 allocate\n\
    1 send 0001\n\
    1 send 0002\n\
    1 end\n\
    =\n\
    1 open 0\n\
    2 open 0\n\
    1 allocate 0\n\
    1 send 8\n\
    1 send 0\n\
    1 end 0 unit 00010391810002\n\
    1 Reset mark none send 0 inbox 0 credit 2 open 3 waiting 0 expedited 0\n\
    2 Reset mark none send 0 inbox 0 credit 3 open 3 waiting 1 expedited 0\n";

const REFUSAL_8_LENGTH_0: [u8; 265] = *b"refusal_8_length_0\n\
    ends 3 64 3 64 192 192\n\
    1 allocate\n\
    1 send 00\n\
    1 send 00\n\
    =\n\
    1 open 0\n\
    2 open 0\n\
    1 allocate 0\n\
    1 send 0\n\
    1 send 8\n\
    1 Send mark none send 1 inbox 0 credit 3 open 3 waiting 0 expedited 0\n\
    2 Reset mark none send 0 inbox 0 credit 3 open 3 waiting 0 expedited 0\n";

// The top bit of LL is no part of the length: 80 01 is 1, 80 00 is 0, and 80 02 is 2.
const REFUSAL_8_PART_OF_1: [u8; 365] = *b"refusal_8_part_of_1\n\
    ends 3 64 3 64 192 192\n\
    1 allocate\n\
    1 send 8001\n\
    1 send 8000\n\
    1 send 80\n\
    1 send 01\n\
    1 send 02\n\
    1 flush\n\
    =\n\
    1 open 0\n\
    2 open 0\n\
    1 allocate 0\n\
    1 send 8\n\
    1 send 8\n\
    1 send 0\n\
    1 send 8\n\
    1 send 0\n\
    1 flush 0 unit 00010391808002\n\
    1 Send mark none send 0 inbox 0 credit 2 open 3 waiting 0 expedited 0\n\
    2 Reset mark none send 0 inbox 0 credit 3 open 3 waiting 1 expedited 0\n";

const REFUSAL_9_RECORD_CUT: [u8; 340] = *b"refusal_9_record_cut\n\
    ends 3 64 3 64 192 192\n\
    1 allocate\n\
    1 send 0005\n\
    1 confirm\n\
    1 turn\n\
    1 end\n\
    1 flush\n\
    =\n\
    1 open 0\n\
    2 open 0\n\
    1 allocate 0\n\
    1 send 0\n\
    1 confirm 9\n\
    1 turn 9\n\
    1 end 9\n\
    1 flush 0 unit 00010391800005\n\
    1 Send mark none send 0 inbox 0 credit 2 open 3 waiting 0 expedited 0\n\
    2 Reset mark none send 0 inbox 0 credit 3 open 3 waiting 1 expedited 0\n";

// 80 02 says that another part follows: held or sent, it is not the end of a table.
const REFUSAL_9_PART: [u8; 508] = *b"refusal_9_part\n\
    ends 3 64 3 64 192 192\n\
    1 allocate\n\
    1 send 8002\n\
    1 turn\n\
    1 turn confirm\n\
    1 end\n\
    1 end confirm\n\
    1 confirm\n\
    1 flush\n\
    1 turn\n\
    1 end\n\
    1 confirm\n\
    1 send 0002\n\
    1 turn\n\
    =\n\
    1 open 0\n\
    2 open 0\n\
    1 allocate 0\n\
    1 send 0\n\
    1 turn 9\n\
    1 turn confirm 9\n\
    1 end 9\n\
    1 end confirm 9\n\
    1 confirm 9\n\
    1 flush 0 unit 00010391808002\n\
    1 turn 9\n\
    1 end 9\n\
    1 confirm 9\n\
    1 send 0\n\
    1 turn 0 unit 00020390200002\n\
    1 Receive mark none send 0 inbox 0 credit 1 open 3 waiting 0 expedited 0\n\
    2 Reset mark none send 0 inbox 0 credit 3 open 3 waiting 2 expedited 0\n";

const REFUSAL_10_NO_CREDIT: [u8; 454] = *b"refusal_10_no_credit\n\
    ends 2 8 2 8 16 16\n\
    1 allocate\n\
    1 send 0002\n\
    1 flush\n\
    1 send 0002\n\
    1 flush\n\
    1 send 0002\n\
    1 flush\n\
    1 turn\n\
    1 confirm\n\
    1 end confirm\n\
    =\n\
    1 open 0\n\
    2 open 0\n\
    1 allocate 0\n\
    1 send 0\n\
    1 flush 0 unit 00010391800002\n\
    1 send 0\n\
    1 flush 0 unit 00020390000002\n\
    1 send 0\n\
    1 flush 10\n\
    1 turn 10\n\
    1 confirm 10\n\
    1 end confirm 10\n\
    1 Send mark none send 2 inbox 0 credit 0 open 2 waiting 0 expedited 0\n\
    2 Reset mark none send 0 inbox 0 credit 2 open 2 waiting 2 expedited 0\n";

const REFUSAL_10_AT_OVERFLOW: [u8; 366] = *b"refusal_10_at_overflow\n\
    ends 1 8 1 8 8 8\n\
    1 allocate\n\
    1 send 000A313233343536\n\
    1 send 3738\n\
    1 send 000A313233343536\n\
    1 send 3738\n\
    =\n\
    1 open 0\n\
    2 open 0\n\
    1 allocate 0\n\
    1 send 0\n\
    1 send 0 unit 0001029180000A313233343536\n\
    1 send 10\n\
    1 send 0\n\
    1 Send mark none send 4 inbox 0 credit 0 open 1 waiting 0 expedited 0\n\
    2 Reset mark none send 0 inbox 0 credit 1 open 1 waiting 1 expedited 0\n";

const REFUSAL_11_NOTHING_OWED: [u8; 243] = *b"refusal_11_nothing_owed\n\
    ends 3 64 3 64 192 192\n\
    1 pace\n\
    2 pace\n\
    =\n\
    1 open 0\n\
    2 open 0\n\
    1 pace 11\n\
    2 pace 11\n\
    1 Reset mark none send 0 inbox 0 credit 3 open 3 waiting 0 expedited 0\n\
    2 Reset mark none send 0 inbox 0 credit 3 open 3 waiting 0 expedited 0\n";

const REFUSAL_11_NO_ROOM: [u8; 385] = *b"refusal_11_no_room\n\
    ends 1 8 1 8 8 8\n\
    1 allocate\n\
    1 send 0002\n\
    1 flush\n\
    2 take\n\
    2 pace\n\
    2 read 2\n\
    2 pace\n\
    =\n\
    1 open 0\n\
    2 open 0\n\
    1 allocate 0\n\
    1 send 0\n\
    1 flush 0 unit 00010391800002\n\
    2 take 0\n\
    2 pace 11\n\
    2 read 0 bytes 0002 complete\n\
    2 pace 0 unit 0000830100\n\
    1 Send mark none send 0 inbox 0 credit 0 open 1 waiting 1 expedited 0\n\
    2 Receive mark none send 0 inbox 0 credit 1 open 1 waiting 0 expedited 0\n";

const REFUSAL_12_NOTHING_TO_READ: [u8; 251] = *b"refusal_12_nothing_to_read\n\
    ends 3 64 3 64 192 192\n\
    1 read 1\n\
    2 read 64\n\
    =\n\
    1 open 0\n\
    2 open 0\n\
    1 read 12\n\
    2 read 12\n\
    1 Reset mark none send 0 inbox 0 credit 3 open 3 waiting 0 expedited 0\n\
    2 Reset mark none send 0 inbox 0 credit 3 open 3 waiting 0 expedited 0\n";

const REFUSAL_13_MARK_UNREAD: [u8; 380] = *b"refusal_13_mark_unread\n\
    ends 3 64 3 64 192 192\n\
    1 allocate\n\
    1 end\n\
    2 take\n\
    2 take -\n\
    2 take 0000830100\n\
    2 read 1\n\
    2 take -\n\
    =\n\
    1 open 0\n\
    2 open 0\n\
    1 allocate 0\n\
    1 end 0 unit 0001039181\n\
    2 take 0\n\
    2 take 13\n\
    2 take 13\n\
    2 read 0 mark end\n\
    2 take 20 40050000\n\
    1 Reset mark none send 0 inbox 0 credit 2 open 3 waiting 0 expedited 0\n\
    2 Reset mark none send 0 inbox 0 credit 3 open 2 waiting 0 expedited 0\n";

// The case of that name; an unknown one is bad.
pub fn own_calls(name: &[u8]) -> bool {
    goes(name, &REFUSAL_6_NO_BYTE)
        | goes(name, &REFUSAL_6_ABOVE_MAXIMUM)
        | goes(name, &REFUSAL_6_NO_CELL)
        | goes(name, &REFUSAL_7_IN_RESET)
        | goes(name, &REFUSAL_7_IN_SEND)
        | goes(name, &REFUSAL_7_BID_UNANSWERED)
        | goes(name, &REFUSAL_8_LENGTH_1)
        | goes(name, &REFUSAL_8_LENGTH_0)
        | goes(name, &REFUSAL_8_PART_OF_1)
        | goes(name, &REFUSAL_9_RECORD_CUT)
        | goes(name, &REFUSAL_9_PART)
        | goes(name, &REFUSAL_10_NO_CREDIT)
        | goes(name, &REFUSAL_10_AT_OVERFLOW)
        | goes(name, &REFUSAL_11_NOTHING_OWED)
        | goes(name, &REFUSAL_11_NO_ROOM)
        | goes(name, &REFUSAL_12_NOTHING_TO_READ)
        | goes(name, &REFUSAL_13_MARK_UNREAD)
}
