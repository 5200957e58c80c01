// An end's record as 48 bytes, for a host that keeps the record in memory of its own. Numbers are low byte first; there is no
// padding. The codes of role, state, what follows and mark are document 01's, in its order from 0; a flag is 0 or 1.
//
// | byte     | what                                                                            |
// |----------|---------------------------------------------------------------------------------|
// | 0        | the format, 5                                                                   |
// | 1        | role: 0 first speaker, 1 bidder                                                 |
// | 2        | state: 0 Reset, 1 Send, 2 Receive, 3 Owes, 4 Waits, 5 Defer-turn, 6 Defer-end   |
// | 3        | what follows a confirmation: 0 stay, 1 turn, 2 end                              |
// | 4        | mark: 0 none, 1 turn, 2 end, 3 confirm, 4 confirm-turn, 5 confirm-end, 6 error  |
// | 5        | flag BB-due                                                                     |
// | 6        | flag bid                                                                        |
// | 7        | sending chain open                                                              |
// | 8        | receiving chain open                                                            |
// | 9        | sending: window W                                                               |
// | 10       | window place                                                                    |
// | 11       | flag: a pacing request is unanswered                                            |
// | 12 to 13 | maximum RU M                                                                    |
// | 14 to 15 | send-held                                                                       |
// | 16 to 17 | last sequence number sent                                                       |
// | 18 to 20 | record place of the bytes given                                                 |
// | 21       | receiving: window W                                                             |
// | 22       | window place                                                                    |
// | 23       | flag: a pacing answer is owed                                                   |
// | 24 to 25 | maximum RU M                                                                    |
// | 26 to 27 | inbox length                                                                    |
// | 28 to 29 | bytes held in the inbox                                                         |
// | 30 to 31 | last sequence number taken                                                      |
// | 32 to 34 | record place of the bytes taken                                                 |
// | 35 to 37 | record place of the bytes read                                                  |
// | 38 to 39 | the bid's number                                                                |
// | 40 to 41 | the number owed a confirmation                                                  |
// | 42       | flag error-due                                                                  |
// | 43       | flag: a signal is unanswered                                                    |
// | 44 to 45 | last expedited number sent                                                      |
// | 46 to 47 | last expedited number taken                                                     |
//
// A record place is a kind byte and a value of two bytes: kind 0 between records, value 0; kind 2 past LL, the number of bytes left;
// kinds 1 and 3 are 0 and 2 where LL says that another part follows; kind 4 after the first LL byte, that byte as the value, at most
// 255.
#![tactic(auto)]

pub mod codes;
pub mod decoding;
pub mod encoding;
mod image_parts;
pub mod theorems;

// The length of an image.
pub const IMAGE: usize = 48;

// An image's first byte, raised with each change by which an image would be read as another record, so that one kept by an older
// library is refused and not misread. The two states of Defer did not raise it: every image that was good is read as it was, and an
// older library refuses a state above 4. Format 4 has the error-due flag behind all that format 3 has, and format 5 behind that what is
// kept of the expedited lines; an older library refuses each by its length. Images without a format began with the role, 0 or 1.
pub const FORMAT: u8 = 5;
