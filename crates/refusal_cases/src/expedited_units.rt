// Units refused on the expedited line, and expedited units refused on the normal one.
use crossing::named::goes;

// Five bytes are a header, and a signal without its RU.
const REFUSAL_20_EXPEDITED: [u8; 415] = *b"refusal_20_expedited\n\
    ends 3 64 3 64 192 192\n\
    1 take expedited -\n\
    1 take expedited 00\n\
    1 take expedited 00014B80\n\
    1 take expedited 00014B8000\n\
    =\n\
    1 open 0\n\
    2 open 0\n\
    1 take expedited 20 40050000\n\
    1 take expedited 20 40050000\n\
    1 take expedited 20 40050000\n\
    1 take expedited 22 10020000\n\
    1 Reset mark none send 0 inbox 0 credit 3 open 3 waiting 0 expedited 0\n\
    2 Reset mark none send 0 inbox 0 credit 3 open 3 waiting 0 expedited 0\n";

// Byte 0 of a confirmation, a pacing answer, data, an error header, a denial and a bid refusal; and of no unit.
const REFUSAL_21_EXPEDITED_H1: [u8; 737] = *b"refusal_21_expedited_h1\n\
    ends 3 64 3 64 192 192\n\
    1 take expedited 0001832000\n\
    1 take expedited 0000830100\n\
    1 take expedited 00010391800002\n\
    1 take expedited 00010B910007070889000000\n\
    1 take expedited 000187300008460000\n\
    1 take expedited 0001CF90000813000004\n\
    1 take expedited 0001FF8000C9\n\
    1 take expedited 00014A8000C900010000\n\
    =\n\
    1 open 0\n\
    2 open 0\n\
    1 take expedited 21 00000000 H1\n\
    1 take expedited 21 00000000 H1\n\
    1 take expedited 21 00000000 H1\n\
    1 take expedited 21 00000000 H1\n\
    1 take expedited 21 00000000 H1\n\
    1 take expedited 21 00000000 H1\n\
    1 take expedited 21 00000000 H1\n\
    1 take expedited 21 00000000 H1\n\
    1 Reset mark none send 0 inbox 0 credit 3 open 3 waiting 0 expedited 0\n\
    2 Reset mark none send 0 inbox 0 credit 3 open 3 waiting 0 expedited 0\n";

// Both bids, and headers that differ in one bit from the two.
const REFUSAL_21_EXPEDITED_H2: [u8; 683] = *b"refusal_21_expedited_h2\n\
    ends 3 64 3 64 192 192\n\
    1 take expedited 00014B81800400060000\n\
    1 take expedited 00014B80800400060000\n\
    1 take expedited 00014B8100C900010000\n\
    1 take expedited 00014B0000C900010000\n\
    1 take expedited 00014B8001C900010000\n\
    1 take expedited 0001CB9000C9\n\
    1 take expedited 0001CB8080C9\n\
    =\n\
    1 open 0\n\
    2 open 0\n\
    1 take expedited 21 00000000 H2\n\
    1 take expedited 21 00000000 H2\n\
    1 take expedited 21 00000000 H2\n\
    1 take expedited 21 00000000 H2\n\
    1 take expedited 21 00000000 H2\n\
    1 take expedited 21 00000000 H2\n\
    1 take expedited 21 00000000 H2\n\
    1 Reset mark none send 0 inbox 0 credit 3 open 3 waiting 0 expedited 0\n\
    2 Reset mark none send 0 inbox 0 credit 3 open 3 waiting 0 expedited 0\n";

// On the normal line 4B 80 00 is no bid.
const REFUSAL_21_SIGNAL_ON_NORMAL_LINE: [u8; 403] = *b"refusal_21_signal_on_normal_line\n\
    ends 3 64 3 64 192 192\n\
    1 take 00014B8000C900010000\n\
    1 take 00014B80000400060000\n\
    1 take expedited 00014B8000C900010000\n\
    =\n\
    1 open 0\n\
    2 open 0\n\
    1 take 21 00000000 H2\n\
    1 take 21 00000000 H2\n\
    1 take expedited 0 unit 0001CB8000C9 signalled\n\
    1 Reset mark none send 0 inbox 0 credit 3 open 3 waiting 0 expedited 0\n\
    2 Reset mark none send 0 inbox 0 credit 3 open 3 waiting 0 expedited 1\n";

// The last byte of the manual's signal is 01. Other RUs are longer, shorter and a bid's. 22 comes before 23.
const REFUSAL_22_SIGNAL_OF_THE_MANUAL: [u8; 611] = *b"refusal_22_signal_of_the_manual\n\
    ends 3 64 3 64 192 192\n\
    1 take expedited 00014B8000C900010001\n\
    1 take expedited 00054B8000C900010001\n\
    1 take expedited 00014B8000C90001000000\n\
    1 take expedited 00014B8000C9000100\n\
    1 take expedited 00014B8000C9\n\
    1 take expedited 00014B80000400060000\n\
    =\n\
    1 open 0\n\
    2 open 0\n\
    1 take expedited 22 10020000\n\
    1 take expedited 22 10020000\n\
    1 take expedited 22 10020000\n\
    1 take expedited 22 10020000\n\
    1 take expedited 22 10020000\n\
    1 take expedited 22 10020000\n\
    1 Reset mark none send 0 inbox 0 credit 3 open 3 waiting 0 expedited 0\n\
    2 Reset mark none send 0 inbox 0 credit 3 open 3 waiting 0 expedited 0\n";

// The grant is good on the normal line. An answer is C9, no more and no less.
const REFUSAL_22_GRANT_ON_EXPEDITED_LINE: [u8; 498] = *b"refusal_22_grant_on_expedited_line\n\
    ends 3 64 3 64 192 192\n\
    2 allocate\n\
    1 take\n\
    2 take expedited 0001CB800004\n\
    2 take expedited 0001CB8000\n\
    2 take expedited 0001CB8000C900\n\
    2 take\n\
    =\n\
    1 open 0\n\
    2 open 0\n\
    2 allocate 0 unit 00014B81800400060000\n\
    1 take 0 unit 0001CB800004\n\
    2 take expedited 22 10020000\n\
    2 take expedited 22 10020000\n\
    2 take expedited 22 10020000\n\
    2 take 0\n\
    1 Receive mark none send 0 inbox 0 credit 3 open 2 waiting 0 expedited 0\n\
    2 Send mark none send 0 inbox 0 credit 2 open 3 waiting 0 expedited 0\n";

// It is no grant, though a bid has that number.
const REFUSAL_22_SIGNAL_ANSWER_ON_NORMAL_LINE: [u8; 314] =
    *b"refusal_22_signal_answer_on_normal_line\n\
    ends 3 64 3 64 192 192\n\
    2 allocate\n\
    2 take 0001CB8000C9\n\
    =\n\
    1 open 0\n\
    2 open 0\n\
    2 allocate 0 unit 00014B81800400060000\n\
    2 take 22 10020000\n\
    1 Reset mark none send 0 inbox 0 credit 3 open 3 waiting 1 expedited 0\n\
    2 Reset mark none send 0 inbox 0 credit 2 open 3 waiting 0 expedited 0\n";

// The next number, and no other; the numbers of normal units do not matter.
const REFUSAL_23_SIGNAL_NUMBER: [u8; 734] = *b"refusal_23_signal_number\n\
    ends 3 64 3 64 192 192\n\
    2 allocate\n\
    1 take\n\
    1 take expedited 00004B8000C900010000\n\
    1 take expedited 00024B8000C900010000\n\
    1 take expedited 00014B8000C900010000\n\
    1 take expedited 00014B8000C900010000\n\
    1 take expedited 00034B8000C900010000\n\
    1 take expedited 00024B8000C900010000\n\
    =\n\
    1 open 0\n\
    2 open 0\n\
    2 allocate 0 unit 00014B81800400060000\n\
    1 take 0 unit 0001CB800004\n\
    1 take expedited 23 20010000\n\
    1 take expedited 23 20010000\n\
    1 take expedited 0 unit 0001CB8000C9 signalled\n\
    1 take expedited 23 20010000\n\
    1 take expedited 23 20010000\n\
    1 take expedited 0 unit 0002CB8000C9 signalled\n\
    1 Receive mark none send 0 inbox 0 credit 3 open 2 waiting 0 expedited 0\n\
    2 Reset mark none send 0 inbox 0 credit 2 open 3 waiting 1 expedited 2\n";

// The last number sent does not help.
const REFUSAL_28_ANSWER_TO_NO_SIGNAL: [u8; 334] = *b"refusal_28_answer_to_no_signal\n\
    ends 3 64 3 64 192 192\n\
    1 take expedited 0000CB8000C9\n\
    1 take expedited 0001CB8000C9\n\
    =\n\
    1 open 0\n\
    2 open 0\n\
    1 take expedited 28 200E0000\n\
    1 take expedited 28 200E0000\n\
    1 Reset mark none send 0 inbox 0 credit 3 open 3 waiting 0 expedited 0\n\
    2 Reset mark none send 0 inbox 0 credit 3 open 3 waiting 0 expedited 0\n";

// That of the signal, once.
const REFUSAL_28_ANSWER_NUMBER: [u8; 542] = *b"refusal_28_answer_number\n\
    ends 3 64 3 64 192 192\n\
    1 allocate\n\
    1 turn\n\
    1 request\n\
    1 take expedited 0000CB8000C9\n\
    1 take expedited 0002CB8000C9\n\
    1 take expedited 0001CB8000C9\n\
    1 take expedited 0001CB8000C9\n\
    =\n\
    1 open 0\n\
    2 open 0\n\
    1 allocate 0\n\
    1 turn 0 unit 00010391A0\n\
    1 request 0 unit 00014B8000C900010000\n\
    1 take expedited 28 200E0000\n\
    1 take expedited 28 200E0000\n\
    1 take expedited 0\n\
    1 take expedited 28 200E0000\n\
    1 Receive mark none send 0 inbox 0 credit 2 open 3 waiting 0 expedited 0\n\
    2 Reset mark none send 0 inbox 0 credit 3 open 3 waiting 1 expedited 1\n";

// The case of that name; an unknown one is bad.
pub fn expedited_units(name: &[u8]) -> bool {
    goes(name, &REFUSAL_20_EXPEDITED)
        | goes(name, &REFUSAL_21_EXPEDITED_H1)
        | goes(name, &REFUSAL_21_EXPEDITED_H2)
        | goes(name, &REFUSAL_21_SIGNAL_ON_NORMAL_LINE)
        | goes(name, &REFUSAL_22_SIGNAL_OF_THE_MANUAL)
        | goes(name, &REFUSAL_22_GRANT_ON_EXPEDITED_LINE)
        | goes(name, &REFUSAL_22_SIGNAL_ANSWER_ON_NORMAL_LINE)
        | goes(name, &REFUSAL_23_SIGNAL_NUMBER)
        | goes(name, &REFUSAL_28_ANSWER_TO_NO_SIGNAL)
        | goes(name, &REFUSAL_28_ANSWER_NUMBER)
}
