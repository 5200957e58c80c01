// Tables of several parts: the top bit of LL says that another part follows.
use crossing::named::goes;

// 80 05 41 42 43, 80 02 and 00 04 44 45, cut behind the first byte, and where the second unit is full.
const TABLE_OF_THREE_PARTS: [u8; 706] = *b"table_of_three_parts\n\
    ends 3 8 3 8 24 24\n\
    1 allocate\n\
    1 send 80\n\
    1 flush\n\
    1 send 0541424380\n\
    1 send 02000444\n\
    1 send 45\n\
    1 turn\n\
    2 take\n\
    2 read 8\n\
    2 take\n\
    2 read 3\n\
    2 read 8\n\
    2 read 8\n\
    2 read 8\n\
    2 take\n\
    2 read 8\n\
    2 read 8\n\
    =\n\
    1 open 0\n\
    2 open 0\n\
    1 allocate 0\n\
    1 send 0\n\
    1 flush 0 unit 000103918080\n\
    1 send 0\n\
    1 send 0 unit 00020290000541424380020004\n\
    1 send 0\n\
    1 turn 0 unit 00030190204445\n\
    2 take 0\n\
    2 read 0 bytes 80\n\
    2 take 0\n\
    2 read 0 bytes 054142\n\
    2 read 0 bytes 43 complete more\n\
    2 read 0 bytes 8002 complete more\n\
    2 read 0 bytes 0004\n\
    2 take 0\n\
    2 read 0 bytes 4445 complete\n\
    2 read 0 mark turn\n\
    1 Receive mark none send 0 inbox 0 credit 0 open 3 waiting 0 expedited 0\n\
    2 Send mark none send 0 inbox 0 credit 3 open 0 waiting 0 expedited 0\n";

const PART_ALONE: [u8; 501] = *b"part_alone\n\
    ends 3 64 3 64 192 192\n\
    1 allocate\n\
    1 send 8002\n\
    1 flush\n\
    2 take\n\
    2 read 64\n\
    2 read 64\n\
    1 send 0002\n\
    1 turn\n\
    2 take\n\
    2 read 64\n\
    2 read 64\n\
    =\n\
    1 open 0\n\
    2 open 0\n\
    1 allocate 0\n\
    1 send 0\n\
    1 flush 0 unit 00010391808002\n\
    2 take 0\n\
    2 read 0 bytes 8002 complete more\n\
    2 read 12\n\
    1 send 0\n\
    1 turn 0 unit 00020390200002\n\
    2 take 0\n\
    2 read 0 bytes 0002 complete\n\
    2 read 0 mark turn\n\
    1 Receive mark none send 0 inbox 0 credit 1 open 3 waiting 0 expedited 0\n\
    2 Send mark none send 0 inbox 0 credit 3 open 1 waiting 0 expedited 0\n";

// FF FF is the longest length, and another part follows; FF alone is no LL yet.
const PART_OF_32767: [u8; 403] = *b"part_of_32767\n\
    ends 3 64 3 64 192 192\n\
    1 allocate\n\
    1 send FF\n\
    1 turn\n\
    1 send FF\n\
    1 turn\n\
    1 flush\n\
    2 take\n\
    2 read 1\n\
    2 read 64\n\
    =\n\
    1 open 0\n\
    2 open 0\n\
    1 allocate 0\n\
    1 send 0\n\
    1 turn 9\n\
    1 send 0\n\
    1 turn 9\n\
    1 flush 0 unit 0001039180FFFF\n\
    2 take 0\n\
    2 read 0 bytes FF\n\
    2 read 0 bytes FF\n\
    1 Send mark none send 0 inbox 0 credit 2 open 3 waiting 0 expedited 0\n\
    2 Receive mark none send 0 inbox 0 credit 3 open 2 waiting 0 expedited 0\n";

// The case of that name; an unknown one is bad.
pub fn parts(name: &[u8]) -> bool {
    goes(name, &TABLE_OF_THREE_PARTS) | goes(name, &PART_ALONE) | goes(name, &PART_OF_32767)
}
