// Units refused as a breach of protocol, 20 to 29.
use crossing::named::goes;

const REFUSAL_20_SHORT: [u8; 265] = *b"refusal_20_short\n\
    ends 3 64 3 64 192 192\n\
    2 take -\n\
    2 take 00010391\n\
    =\n\
    1 open 0\n\
    2 open 0\n\
    2 take 20 40050000\n\
    2 take 20 40050000\n\
    1 Reset mark none send 0 inbox 0 credit 3 open 3 waiting 0 expedited 0\n\
    2 Reset mark none send 0 inbox 0 credit 3 open 3 waiting 0 expedited 0\n";

const REFUSAL_21_H1: [u8; 281] = *b"refusal_21_h1\n\
    ends 3 64 3 64 192 192\n\
    2 take 000104900000\n\
    2 take 0001FFFFFF\n\
    =\n\
    1 open 0\n\
    2 open 0\n\
    2 take 21 00000000 H1\n\
    2 take 21 00000000 H1\n\
    1 Reset mark none send 0 inbox 0 credit 3 open 3 waiting 0 expedited 0\n\
    2 Reset mark none send 0 inbox 0 credit 3 open 3 waiting 0 expedited 0\n";

const REFUSAL_21_H2: [u8; 371] = *b"refusal_21_h2\n\
    ends 3 64 3 64 192 192\n\
    2 take 00014B808100\n\
    2 take 0001CB800104\n\
    2 take 0001CF800008130000\n\
    2 take 0001832100\n\
    =\n\
    1 open 0\n\
    2 open 0\n\
    2 take 21 00000000 H2\n\
    2 take 21 00000000 H2\n\
    2 take 21 00000000 H2\n\
    2 take 21 00000000 H2\n\
    1 Reset mark none send 0 inbox 0 credit 3 open 3 waiting 0 expedited 0\n\
    2 Reset mark none send 0 inbox 0 credit 3 open 3 waiting 0 expedited 0\n";

const REFUSAL_21_H3: [u8; 287] = *b"refusal_21_h3\n\
    ends 3 64 3 64 192 192\n\
    2 take 000103B0000002\n\
    2 take 00010380810002\n\
    =\n\
    1 open 0\n\
    2 open 0\n\
    2 take 21 00000000 H3\n\
    2 take 21 00000000 H3\n\
    1 Reset mark none send 0 inbox 0 credit 3 open 3 waiting 0 expedited 0\n\
    2 Reset mark none send 0 inbox 0 credit 3 open 3 waiting 0 expedited 0\n";

const REFUSAL_21_H4: [u8; 287] = *b"refusal_21_h4\n\
    ends 3 64 3 64 192 192\n\
    2 take 00010221800002\n\
    2 take 00010020000002\n\
    =\n\
    1 open 0\n\
    2 open 0\n\
    2 take 21 00000000 H4\n\
    2 take 21 00000000 H4\n\
    1 Reset mark none send 0 inbox 0 credit 3 open 3 waiting 0 expedited 0\n\
    2 Reset mark none send 0 inbox 0 credit 3 open 3 waiting 0 expedited 0\n";

const REFUSAL_21_H5: [u8; 287] = *b"refusal_21_h5\n\
    ends 3 64 3 64 192 192\n\
    2 take 00010390210002\n\
    2 take 00010391400002\n\
    =\n\
    1 open 0\n\
    2 open 0\n\
    2 take 21 00000000 H5\n\
    2 take 21 00000000 H5\n\
    1 Reset mark none send 0 inbox 0 credit 3 open 3 waiting 0 expedited 0\n\
    2 Reset mark none send 0 inbox 0 credit 3 open 3 waiting 0 expedited 0\n";

const REFUSAL_21_H6: [u8; 287] = *b"refusal_21_h6\n\
    ends 3 64 3 64 192 192\n\
    2 take 00010191800002\n\
    2 take 00010291810002\n\
    =\n\
    1 open 0\n\
    2 open 0\n\
    2 take 21 00000000 H6\n\
    2 take 21 00000000 H6\n\
    1 Reset mark none send 0 inbox 0 credit 3 open 3 waiting 0 expedited 0\n\
    2 Reset mark none send 0 inbox 0 credit 3 open 3 waiting 0 expedited 0\n";

// Headers that break two rules and three.
const REFUSAL_21_LOWEST: [u8; 467] = *b"refusal_21_lowest\n\
    ends 3 64 3 64 192 192\n\
    2 take 00010090210002\n\
    2 take 00010020200002\n\
    2 take 00010130220002\n\
    2 take 00010331880002\n\
    2 take 00010020210002\n\
    2 take 00010030220002\n\
    =\n\
    1 open 0\n\
    2 open 0\n\
    2 take 21 00000000 H5\n\
    2 take 21 00000000 H4\n\
    2 take 21 00000000 H3\n\
    2 take 21 00000000 H3\n\
    2 take 21 00000000 H4\n\
    2 take 21 00000000 H3\n\
    1 Reset mark none send 0 inbox 0 credit 3 open 3 waiting 0 expedited 0\n\
    2 Reset mark none send 0 inbox 0 credit 3 open 3 waiting 0 expedited 0\n";

const REFUSAL_22_EMPTY_DATA: [u8; 281] = *b"refusal_22_empty_data\n\
    ends 3 64 3 64 192 192\n\
    2 take 0001039180\n\
    2 take 0001029180\n\
    =\n\
    1 open 0\n\
    2 open 0\n\
    2 take 22 10020000\n\
    2 take 22 10020000\n\
    1 Reset mark none send 0 inbox 0 credit 3 open 3 waiting 0 expedited 0\n\
    2 Reset mark none send 0 inbox 0 credit 3 open 3 waiting 0 expedited 0\n";

const REFUSAL_22_ABOVE_MAXIMUM: [u8; 261] = *b"refusal_22_above_maximum\n\
    ends 3 8 3 8 24 24\n\
    2 take 0001039181000931323334353637\n\
    =\n\
    1 open 0\n\
    2 open 0\n\
    2 take 22 10020000\n\
    1 Reset mark none send 0 inbox 0 credit 3 open 3 waiting 0 expedited 0\n\
    2 Reset mark none send 0 inbox 0 credit 3 open 3 waiting 0 expedited 0\n";

const REFUSAL_22_FIXED: [u8; 411] = *b"refusal_22_fixed\n\
    ends 3 64 3 64 192 192\n\
    1 take 00014B81800400060001\n\
    2 take 0001CB8000\n\
    2 take 0001CF90000813000005\n\
    2 take 000183200000\n\
    2 take 000083010000\n\
    =\n\
    1 open 0\n\
    2 open 0\n\
    1 take 22 10020000\n\
    2 take 22 10020000\n\
    2 take 22 10020000\n\
    2 take 22 10020000\n\
    2 take 22 10020000\n\
    1 Reset mark none send 0 inbox 0 credit 3 open 3 waiting 0 expedited 0\n\
    2 Reset mark none send 0 inbox 0 credit 3 open 3 waiting 0 expedited 0\n";

const REFUSAL_23_REQUEST: [u8; 333] = *b"refusal_23_request\n\
    ends 3 64 3 64 192 192\n\
    2 take 00020391810002\n\
    2 take 00000391810002\n\
    1 take 00024B81800400060000\n\
    =\n\
    1 open 0\n\
    2 open 0\n\
    2 take 23 20010000\n\
    2 take 23 20010000\n\
    1 take 23 20010000\n\
    1 Reset mark none send 0 inbox 0 credit 3 open 3 waiting 0 expedited 0\n\
    2 Reset mark none send 0 inbox 0 credit 3 open 3 waiting 0 expedited 0\n";

const REFUSAL_23_PACING_RESPONSE: [u8; 358] = *b"refusal_23_pacing_response\n\
    ends 3 64 3 64 192 192\n\
    1 allocate\n\
    1 send 0002\n\
    1 flush\n\
    1 take 0001830100\n\
    1 take 0000830100\n\
    =\n\
    1 open 0\n\
    2 open 0\n\
    1 allocate 0\n\
    1 send 0\n\
    1 flush 0 unit 00010391800002\n\
    1 take 23 20010000\n\
    1 take 0\n\
    1 Send mark none send 0 inbox 0 credit 5 open 3 waiting 0 expedited 0\n\
    2 Reset mark none send 0 inbox 0 credit 3 open 3 waiting 1 expedited 0\n";

const REFUSAL_24_NOT_FIRST: [u8; 247] = *b"refusal_24_not_first\n\
    ends 3 64 3 64 192 192\n\
    2 take 00010191010002\n\
    =\n\
    1 open 0\n\
    2 open 0\n\
    2 take 24 20020000\n\
    1 Reset mark none send 0 inbox 0 credit 3 open 3 waiting 0 expedited 0\n\
    2 Reset mark none send 0 inbox 0 credit 3 open 3 waiting 0 expedited 0\n";

const REFUSAL_24_CHAIN_OPEN: [u8; 316] = *b"refusal_24_chain_open\n\
    ends 3 64 3 64 192 192\n\
    2 take 00010291800005\n\
    2 take 0002039000414243\n\
    2 take 0002019000414243\n\
    =\n\
    1 open 0\n\
    2 open 0\n\
    2 take 0\n\
    2 take 24 20020000\n\
    2 take 0\n\
    1 Reset mark none send 0 inbox 0 credit 3 open 3 waiting 0 expedited 0\n\
    2 Receive mark none send 0 inbox 5 credit 3 open 1 waiting 0 expedited 0\n";

const REFUSAL_25_BID_AT_BIDDER: [u8; 257] = *b"refusal_25_bid_at_bidder\n\
    ends 3 64 3 64 192 192\n\
    2 take 00014B81800400060000\n\
    =\n\
    1 open 0\n\
    2 open 0\n\
    2 take 25 20030000\n\
    1 Reset mark none send 0 inbox 0 credit 3 open 3 waiting 0 expedited 0\n\
    2 Reset mark none send 0 inbox 0 credit 3 open 3 waiting 0 expedited 0\n";

const REFUSAL_25_NO_BRACKET: [u8; 248] = *b"refusal_25_no_bracket\n\
    ends 3 64 3 64 192 192\n\
    2 take 00010391010002\n\
    =\n\
    1 open 0\n\
    2 open 0\n\
    2 take 25 20030000\n\
    1 Reset mark none send 0 inbox 0 credit 3 open 3 waiting 0 expedited 0\n\
    2 Reset mark none send 0 inbox 0 credit 3 open 3 waiting 0 expedited 0\n";

const REFUSAL_25_BRACKET_AT_FIRST_SPEAKER: [u8; 262] = *b"refusal_25_bracket_at_first_speaker\n\
    ends 3 64 3 64 192 192\n\
    1 take 00010391800002\n\
    =\n\
    1 open 0\n\
    2 open 0\n\
    1 take 25 20030000\n\
    1 Reset mark none send 0 inbox 0 credit 3 open 3 waiting 0 expedited 0\n\
    2 Reset mark none send 0 inbox 0 credit 3 open 3 waiting 0 expedited 0\n";

const REFUSAL_26_STATE: [u8; 307] = *b"refusal_26_state\n\
    ends 3 64 3 64 192 192\n\
    1 take 00010391010002\n\
    1 allocate\n\
    1 take 00010391010002\n\
    =\n\
    1 open 0\n\
    2 open 0\n\
    1 take 26 20040000\n\
    1 allocate 0\n\
    1 take 26 20040000\n\
    1 Send mark none send 0 inbox 0 credit 3 open 3 waiting 0 expedited 0\n\
    2 Reset mark none send 0 inbox 0 credit 3 open 3 waiting 0 expedited 0\n";

const REFUSAL_27_NO_BIT: [u8; 244] = *b"refusal_27_no_bit\n\
    ends 3 64 3 64 192 192\n\
    2 take 00010390810002\n\
    =\n\
    1 open 0\n\
    2 open 0\n\
    2 take 27 20110000\n\
    1 Reset mark none send 0 inbox 0 credit 3 open 3 waiting 0 expedited 0\n\
    2 Reset mark none send 0 inbox 0 credit 3 open 3 waiting 0 expedited 0\n";

const REFUSAL_27_BIT_WITHIN_WINDOW: [u8; 288] = *b"refusal_27_bit_within_window\n\
    ends 3 64 3 64 192 192\n\
    2 take 00010391800002\n\
    2 take 00020391000002\n\
    =\n\
    1 open 0\n\
    2 open 0\n\
    2 take 0\n\
    2 take 27 20110000\n\
    1 Reset mark none send 0 inbox 0 credit 3 open 3 waiting 0 expedited 0\n\
    2 Receive mark none send 0 inbox 2 credit 3 open 2 waiting 0 expedited 0\n";

const REFUSAL_27_NONE_OPEN: [u8; 274] = *b"refusal_27_none_open\n\
    ends 1 8 1 8 8 8\n\
    2 take 00010391800002\n\
    2 take 00020391000002\n\
    =\n\
    1 open 0\n\
    2 open 0\n\
    2 take 0\n\
    2 take 27 20110000\n\
    1 Reset mark none send 0 inbox 0 credit 1 open 1 waiting 0 expedited 0\n\
    2 Receive mark none send 0 inbox 2 credit 1 open 0 waiting 0 expedited 0\n";

const REFUSAL_27_PACING_RESPONSE: [u8; 249] = *b"refusal_27_pacing_response\n\
    ends 3 64 3 64 192 192\n\
    1 take 0000830100\n\
    =\n\
    1 open 0\n\
    2 open 0\n\
    1 take 27 20110000\n\
    1 Reset mark none send 0 inbox 0 credit 3 open 3 waiting 0 expedited 0\n\
    2 Reset mark none send 0 inbox 0 credit 3 open 3 waiting 0 expedited 0\n";

const REFUSAL_28_GRANT: [u8; 397] = *b"refusal_28_grant\n\
    ends 3 64 3 64 192 192\n\
    2 take 0001CB800004\n\
    2 allocate\n\
    2 take 0002CB800004\n\
    2 take 0001CB800004\n\
    2 take 0001CB800004\n\
    =\n\
    1 open 0\n\
    2 open 0\n\
    2 take 28 200E0000\n\
    2 allocate 0 unit 00014B81800400060000\n\
    2 take 28 200E0000\n\
    2 take 0\n\
    2 take 28 200E0000\n\
    1 Reset mark none send 0 inbox 0 credit 3 open 3 waiting 1 expedited 0\n\
    2 Send mark none send 0 inbox 0 credit 2 open 3 waiting 0 expedited 0\n";

const REFUSAL_28_BID_REFUSAL: [u8; 389] = *b"refusal_28_bid_refusal\n\
    ends 3 64 3 64 192 192\n\
    2 take 0001CF90000813000004\n\
    2 allocate\n\
    2 take 0002CF90000813000004\n\
    2 take 0001CF90000813000004\n\
    =\n\
    1 open 0\n\
    2 open 0\n\
    2 take 28 200E0000\n\
    2 allocate 0 unit 00014B81800400060000\n\
    2 take 28 200E0000\n\
    2 take 0\n\
    1 Reset mark none send 0 inbox 0 credit 3 open 3 waiting 1 expedited 0\n\
    2 Reset mark none send 0 inbox 0 credit 2 open 3 waiting 0 expedited 0\n";

const REFUSAL_28_CONFIRMATION: [u8; 371] = *b"refusal_28_confirmation\n\
    ends 3 64 3 64 192 192\n\
    1 allocate\n\
    1 take 0000832000\n\
    1 confirm\n\
    1 take 0002832000\n\
    1 take 0001832000\n\
    =\n\
    1 open 0\n\
    2 open 0\n\
    1 allocate 0\n\
    1 take 28 200E0000\n\
    1 confirm 0 unit 0001032180\n\
    1 take 28 200E0000\n\
    1 take 0\n\
    1 Send mark none send 0 inbox 0 credit 2 open 3 waiting 0 expedited 0\n\
    2 Reset mark none send 0 inbox 0 credit 3 open 3 waiting 1 expedited 0\n";

const REFUSAL_29_LENGTH: [u8; 326] = *b"refusal_29_length\n\
    ends 3 64 3 64 192 192\n\
    2 take 00010391800001\n\
    2 take 00010391808000\n\
    2 take 00010391808001\n\
    =\n\
    1 open 0\n\
    2 open 0\n\
    2 take 29 00000000\n\
    2 take 29 00000000\n\
    2 take 29 00000000\n\
    1 Reset mark none send 0 inbox 0 credit 3 open 3 waiting 0 expedited 0\n\
    2 Reset mark none send 0 inbox 0 credit 3 open 3 waiting 0 expedited 0\n";

const REFUSAL_29_RECORD_CUT: [u8; 330] = *b"refusal_29_record_cut\n\
    ends 3 64 3 64 192 192\n\
    2 take 0001039181000541\n\
    2 take 00010391A000\n\
    2 take 00010321800005\n\
    =\n\
    1 open 0\n\
    2 open 0\n\
    2 take 29 00000000\n\
    2 take 29 00000000\n\
    2 take 29 00000000\n\
    1 Reset mark none send 0 inbox 0 credit 3 open 3 waiting 0 expedited 0\n\
    2 Reset mark none send 0 inbox 0 credit 3 open 3 waiting 0 expedited 0\n";

// Each of the five marks behind 80 02, in its own unit and in the next.
const REFUSAL_29_PART: [u8; 507] = *b"refusal_29_part\n\
    ends 3 64 3 64 192 192\n\
    2 take 00010391A08002\n\
    2 take 00010391818002\n\
    2 take 00010321808002\n\
    2 take 00010321A08002\n\
    2 take 00010321818002\n\
    2 take 00010391808002\n\
    2 take 0002039020\n\
    2 take 00020390200002\n\
    =\n\
    1 open 0\n\
    2 open 0\n\
    2 take 29 00000000\n\
    2 take 29 00000000\n\
    2 take 29 00000000\n\
    2 take 29 00000000\n\
    2 take 29 00000000\n\
    2 take 0\n\
    2 take 29 00000000\n\
    2 take 0\n\
    1 Reset mark none send 0 inbox 0 credit 3 open 3 waiting 0 expedited 0\n\
    2 Receive mark turn send 0 inbox 4 credit 3 open 1 waiting 0 expedited 0\n";

fn breaches_1(name: &[u8]) -> bool {
    goes(name, &REFUSAL_20_SHORT)
        | goes(name, &REFUSAL_21_H1)
        | goes(name, &REFUSAL_21_H2)
        | goes(name, &REFUSAL_21_H3)
        | goes(name, &REFUSAL_21_H4)
        | goes(name, &REFUSAL_21_H5)
        | goes(name, &REFUSAL_21_H6)
        | goes(name, &REFUSAL_21_LOWEST)
        | goes(name, &REFUSAL_22_EMPTY_DATA)
        | goes(name, &REFUSAL_22_ABOVE_MAXIMUM)
        | goes(name, &REFUSAL_22_FIXED)
        | goes(name, &REFUSAL_23_REQUEST)
        | goes(name, &REFUSAL_23_PACING_RESPONSE)
        | goes(name, &REFUSAL_24_NOT_FIRST)
        | goes(name, &REFUSAL_24_CHAIN_OPEN)
}

fn breaches_2(name: &[u8]) -> bool {
    goes(name, &REFUSAL_25_BID_AT_BIDDER)
        | goes(name, &REFUSAL_25_NO_BRACKET)
        | goes(name, &REFUSAL_25_BRACKET_AT_FIRST_SPEAKER)
        | goes(name, &REFUSAL_26_STATE)
        | goes(name, &REFUSAL_27_NO_BIT)
        | goes(name, &REFUSAL_27_BIT_WITHIN_WINDOW)
        | goes(name, &REFUSAL_27_NONE_OPEN)
        | goes(name, &REFUSAL_27_PACING_RESPONSE)
        | goes(name, &REFUSAL_28_GRANT)
        | goes(name, &REFUSAL_28_BID_REFUSAL)
        | goes(name, &REFUSAL_28_CONFIRMATION)
        | goes(name, &REFUSAL_29_LENGTH)
        | goes(name, &REFUSAL_29_RECORD_CUT)
        | goes(name, &REFUSAL_29_PART)
}

// The case of that name; an unknown one is bad.
pub fn breaches(name: &[u8]) -> bool {
    breaches_1(name) | breaches_2(name)
}
