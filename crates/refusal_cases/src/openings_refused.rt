// Openings that are refused, by their numbers 2 to 4.
use crossing::named::goes;

const REFUSAL_2_WINDOW_0: [u8; 73] = *b"refusal_2_window_0\n\
    ends 0 64 3 64 192 192\n\
    1 allocate\n\
    =\n\
    1 open 2\n\
    2 open 2\n";

const REFUSAL_2_WINDOW_64: [u8; 65] = *b"refusal_2_window_64\n\
    ends 3 64 64 64 4096 192\n\
    =\n\
    1 open 2\n\
    2 open 2\n";

const REFUSAL_3_MAXIMUM_7: [u8; 61] = *b"refusal_3_maximum_7\n\
    ends 3 7 3 64 192 21\n\
    =\n\
    1 open 3\n\
    2 open 3\n";

const REFUSAL_3_MAXIMUM_1025: [u8; 69] = *b"refusal_3_maximum_1025\n\
    ends 3 64 3 1025 3075 192\n\
    =\n\
    1 open 3\n\
    2 open 3\n";

const REFUSAL_4_INBOX: [u8; 59] = *b"refusal_4_inbox\n\
    ends 3 64 3 64 191 191\n\
    =\n\
    1 open 4\n\
    2 open 4\n";

// The case of that name; an unknown one is bad.
pub fn opening(name: &[u8]) -> bool {
    goes(name, &REFUSAL_2_WINDOW_0)
        | goes(name, &REFUSAL_2_WINDOW_64)
        | goes(name, &REFUSAL_3_MAXIMUM_7)
        | goes(name, &REFUSAL_3_MAXIMUM_1025)
        | goes(name, &REFUSAL_4_INBOX)
}
