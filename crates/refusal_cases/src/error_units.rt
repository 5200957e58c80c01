// Error headers and negative confirmations refused as a breach of protocol, 21 to 29.
use crossing::named::goes;

// 07, 0A and 8B are near 0B and 87, and no byte 0 of a header.
const REFUSAL_21_H1_ERROR_UNITS: [u8; 415] = *b"refusal_21_h1_error_units\n\
    ends 3 64 3 64 192 192\n\
    1 take 000107910007070889000000\n\
    1 take 00010A900007070889000000\n\
    1 take 000107300008460000\n\
    1 take 00018B300008460000\n\
    =\n\
    1 open 0\n\
    2 open 0\n\
    1 take 21 00000000 H1\n\
    1 take 21 00000000 H1\n\
    1 take 21 00000000 H1\n\
    1 take 21 00000000 H1\n\
    1 Reset mark none send 0 inbox 0 credit 3 open 3 waiting 0 expedited 0\n\
    2 Reset mark none send 0 inbox 0 credit 3 open 3 waiting 0 expedited 0\n";

const REFUSAL_21_H2_ERROR_HEADER: [u8; 482] = *b"refusal_21_h2_error_header\n\
    ends 3 64 3 64 192 192\n\
    1 take 00010B800007070889000000\n\
    1 take 00010B908007070889000000\n\
    1 take 00010B912007070889000000\n\
    1 take 00010B200007070889000000\n\
    1 take 00010BB00007070889000000\n\
    =\n\
    1 open 0\n\
    2 open 0\n\
    1 take 21 00000000 H2\n\
    1 take 21 00000000 H2\n\
    1 take 21 00000000 H2\n\
    1 take 21 00000000 H2\n\
    1 take 21 00000000 H2\n\
    1 Reset mark none send 0 inbox 0 credit 3 open 3 waiting 0 expedited 0\n\
    2 Reset mark none send 0 inbox 0 credit 3 open 3 waiting 0 expedited 0\n";

const REFUSAL_21_H2_NEGATIVE_CONFIRMATION: [u8; 475] = *b"refusal_21_h2_negative_confirmation\n\
    ends 3 64 3 64 192 192\n\
    1 allocate\n\
    1 confirm\n\
    1 take 000187200008460000\n\
    1 take 000187300108460000\n\
    1 take 000187310008460000\n\
    1 take 000187900008460000\n\
    =\n\
    1 open 0\n\
    2 open 0\n\
    1 allocate 0\n\
    1 confirm 0 unit 0001032180\n\
    1 take 21 00000000 H2\n\
    1 take 21 00000000 H2\n\
    1 take 21 00000000 H2\n\
    1 take 21 00000000 H2\n\
    1 Waits mark none send 0 inbox 0 credit 2 open 3 waiting 0 expedited 0\n\
    2 Reset mark none send 0 inbox 0 credit 3 open 3 waiting 1 expedited 0\n";

// The RU is 07 07 08 89 00 00 00 and no other.
const REFUSAL_22_ERROR_HEADER: [u8; 508] = *b"refusal_22_error_header\n\
    ends 3 64 3 64 192 192\n\
    1 allocate\n\
    1 turn\n\
    1 take 00010B9100\n\
    1 take 00010B910007070889000001\n\
    1 take 00010B9100070708890000\n\
    1 take 00010B91000707088900000000\n\
    1 take 00010B910007070864000000\n\
    =\n\
    1 open 0\n\
    2 open 0\n\
    1 allocate 0\n\
    1 turn 0 unit 00010391A0\n\
    1 take 22 10020000\n\
    1 take 22 10020000\n\
    1 take 22 10020000\n\
    1 take 22 10020000\n\
    1 take 22 10020000\n\
    1 Receive mark none send 0 inbox 0 credit 2 open 3 waiting 0 expedited 0\n\
    2 Reset mark none send 0 inbox 0 credit 3 open 3 waiting 1 expedited 0\n";

const REFUSAL_22_NEGATIVE_CONFIRMATION: [u8; 489] = *b"refusal_22_negative_confirmation\n\
    ends 3 64 3 64 192 192\n\
    1 allocate\n\
    1 confirm\n\
    1 take 0001873000\n\
    1 take 000187300008460001\n\
    1 take 0001873000084600\n\
    1 take 00018730000846000000\n\
    1 take 000187300008460000\n\
    =\n\
    1 open 0\n\
    2 open 0\n\
    1 allocate 0\n\
    1 confirm 0 unit 0001032180\n\
    1 take 22 10020000\n\
    1 take 22 10020000\n\
    1 take 22 10020000\n\
    1 take 22 10020000\n\
    1 take 0\n\
    1 Receive mark none send 0 inbox 0 credit 2 open 3 waiting 0 expedited 0\n\
    2 Reset mark none send 0 inbox 0 credit 3 open 3 waiting 1 expedited 0\n";

const REFUSAL_23_ERROR_HEADER: [u8; 411] = *b"refusal_23_error_header\n\
    ends 3 64 3 64 192 192\n\
    1 allocate\n\
    1 turn\n\
    1 take 00020B910007070889000000\n\
    1 take 00000B910007070889000000\n\
    1 take 00010B910007070889000000\n\
    =\n\
    1 open 0\n\
    2 open 0\n\
    1 allocate 0\n\
    1 turn 0 unit 00010391A0\n\
    1 take 23 20010000\n\
    1 take 23 20010000\n\
    1 take 0\n\
    1 Receive mark error send 0 inbox 0 credit 2 open 2 waiting 0 expedited 0\n\
    2 Reset mark none send 0 inbox 0 credit 3 open 3 waiting 1 expedited 0\n";

// Within a chain, at a whole record; then behind it.
const REFUSAL_24_ERROR_HEADER: [u8; 366] = *b"refusal_24_error_header\n\
    ends 3 64 3 64 192 192\n\
    2 take 00010291800002\n\
    2 take 00020B900007070889000000\n\
    2 take 00020190000002\n\
    2 take 00030B900007070889000000\n\
    =\n\
    1 open 0\n\
    2 open 0\n\
    2 take 0\n\
    2 take 24 20020000\n\
    2 take 0\n\
    2 take 0\n\
    1 Reset mark none send 0 inbox 0 credit 3 open 3 waiting 0 expedited 0\n\
    2 Receive mark error send 0 inbox 4 credit 3 open 0 waiting 0 expedited 0\n";

// It begins no bracket: a bidder in Reset refuses it, its bid unanswered or not.
const REFUSAL_25_ERROR_HEADER: [u8; 361] = *b"refusal_25_error_header\n\
    ends 3 64 3 64 192 192\n\
    2 take 00010B910007070889000000\n\
    2 allocate\n\
    2 take 00010B910007070889000000\n\
    =\n\
    1 open 0\n\
    2 open 0\n\
    2 take 25 20030000\n\
    2 allocate 0 unit 00014B81800400060000\n\
    2 take 25 20030000\n\
    1 Reset mark none send 0 inbox 0 credit 3 open 3 waiting 1 expedited 0\n\
    2 Reset mark none send 0 inbox 0 credit 2 open 3 waiting 0 expedited 0\n";

// In Reset at the first speaker, in Send, Defer, Waits and Owes.
const REFUSAL_26_ERROR_HEADER: [u8; 606] = *b"refusal_26_error_header\n\
    ends 3 64 3 64 192 192\n\
    1 take 00010B910007070889000000\n\
    1 allocate\n\
    1 take 00010B910007070889000000\n\
    1 prepare end\n\
    1 take 00010B910007070889000000\n\
    1 confirm\n\
    1 take 00010B910007070889000000\n\
    2 take\n\
    2 read 9\n\
    2 take 00020B900007070889000000\n\
    =\n\
    1 open 0\n\
    2 open 0\n\
    1 take 26 20040000\n\
    1 allocate 0\n\
    1 take 26 20040000\n\
    1 prepare end 0\n\
    1 take 26 20040000\n\
    1 confirm 0 unit 0001032181\n\
    1 take 26 20040000\n\
    2 take 0\n\
    2 read 0 mark confirm-end\n\
    2 take 26 20040000\n\
    1 Waits mark none send 0 inbox 0 credit 2 open 3 waiting 0 expedited 0\n\
    2 Owes mark none send 0 inbox 0 credit 3 open 2 waiting 0 expedited 0\n";

// Bit on within the window; none open; bit off at place 0.
const REFUSAL_27_ERROR_HEADER: [u8; 573] = *b"refusal_27_error_header\n\
    ends 2 8 2 8 16 16\n\
    2 take 00010391800002\n\
    2 take 00020B910007070889000000\n\
    2 take 00020B900007070889000000\n\
    2 read 8\n\
    2 read 8\n\
    2 take 00030B910007070889000000\n\
    2 pace\n\
    2 take 00030B900007070889000000\n\
    2 take 00030B910007070889000000\n\
    =\n\
    1 open 0\n\
    2 open 0\n\
    2 take 0\n\
    2 take 27 20110000\n\
    2 take 0\n\
    2 read 0 bytes 0002 complete\n\
    2 read 0 mark error\n\
    2 take 27 20110000\n\
    2 pace 0 unit 0000830100\n\
    2 take 27 20110000\n\
    2 take 0\n\
    1 Reset mark none send 0 inbox 0 credit 2 open 2 waiting 1 expedited 0\n\
    2 Receive mark error send 0 inbox 0 credit 2 open 1 waiting 0 expedited 0\n";

// In Reset and Send; in Waits under another number; in Receive and Owes.
const REFUSAL_28_NEGATIVE_CONFIRMATION: [u8; 633] = *b"refusal_28_negative_confirmation\n\
    ends 3 64 3 64 192 192\n\
    1 take 000087300008460000\n\
    1 allocate\n\
    1 take 000087300008460000\n\
    1 confirm\n\
    1 take 000087300008460000\n\
    1 take 000287300008460000\n\
    1 take 000187300008460000\n\
    1 take 000187300008460000\n\
    2 take\n\
    2 read 9\n\
    2 take 000087300008460000\n\
    =\n\
    1 open 0\n\
    2 open 0\n\
    1 take 28 200E0000\n\
    1 allocate 0\n\
    1 take 28 200E0000\n\
    1 confirm 0 unit 0001032180\n\
    1 take 28 200E0000\n\
    1 take 28 200E0000\n\
    1 take 0\n\
    1 take 28 200E0000\n\
    2 take 0\n\
    2 read 0 mark confirm\n\
    2 take 28 200E0000\n\
    1 Receive mark none send 0 inbox 0 credit 2 open 3 waiting 0 expedited 0\n\
    2 Owes mark none send 0 inbox 0 credit 3 open 2 waiting 0 expedited 0\n";

// Within a record, read or not; behind it the error header is taken.
const REFUSAL_29_ERROR_HEADER: [u8; 450] = *b"refusal_29_error_header\n\
    ends 3 64 3 64 192 192\n\
    2 take 0001039180000541\n\
    2 take 00020B900007070889000000\n\
    2 read 9\n\
    2 take 00020B900007070889000000\n\
    2 take 00020390004243\n\
    2 take 00030B900007070889000000\n\
    =\n\
    1 open 0\n\
    2 open 0\n\
    2 take 0\n\
    2 take 29 00000000\n\
    2 read 0 bytes 000541\n\
    2 take 29 00000000\n\
    2 take 0\n\
    2 take 0\n\
    1 Reset mark none send 0 inbox 0 credit 3 open 3 waiting 0 expedited 0\n\
    2 Receive mark error send 0 inbox 2 credit 3 open 0 waiting 0 expedited 0\n";

// 80 02 says that another part follows: the record is not whole.
const REFUSAL_29_ERROR_HEADER_AFTER_PART: [u8; 377] = *b"refusal_29_error_header_after_part\n\
    ends 3 64 3 64 192 192\n\
    2 take 00010391808002\n\
    2 take 00020B900007070889000000\n\
    2 take 00020390000002\n\
    2 take 00030B900007070889000000\n\
    =\n\
    1 open 0\n\
    2 open 0\n\
    2 take 0\n\
    2 take 29 00000000\n\
    2 take 0\n\
    2 take 0\n\
    1 Reset mark none send 0 inbox 0 credit 3 open 3 waiting 0 expedited 0\n\
    2 Receive mark error send 0 inbox 4 credit 3 open 0 waiting 0 expedited 0\n";

// The case of that name; an unknown one is bad.
pub fn error_units(name: &[u8]) -> bool {
    goes(name, &REFUSAL_21_H1_ERROR_UNITS)
        | goes(name, &REFUSAL_21_H2_ERROR_HEADER)
        | goes(name, &REFUSAL_21_H2_NEGATIVE_CONFIRMATION)
        | goes(name, &REFUSAL_22_ERROR_HEADER)
        | goes(name, &REFUSAL_22_NEGATIVE_CONFIRMATION)
        | goes(name, &REFUSAL_23_ERROR_HEADER)
        | goes(name, &REFUSAL_24_ERROR_HEADER)
        | goes(name, &REFUSAL_25_ERROR_HEADER)
        | goes(name, &REFUSAL_26_ERROR_HEADER)
        | goes(name, &REFUSAL_27_ERROR_HEADER)
        | goes(name, &REFUSAL_28_NEGATIVE_CONFIRMATION)
        | goes(name, &REFUSAL_29_ERROR_HEADER)
        | goes(name, &REFUSAL_29_ERROR_HEADER_AFTER_PART)
}
