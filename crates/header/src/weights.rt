// The bits of a header by weight (document 01, "The unit and its header"; document 000, appendix D, figure D-1). Where document 01 has no
// word for a bit the name is document 000's: no good header has such a bit on, and the reader tests it all the same.

// Byte 0: response; category, two bits of which 40 is flow control, 20 network control, both session control and none data; a reserved
// bit; format; sense included; first and last in chain.
pub const RESPONSE: u8 = 0x80;

pub const FLOW_CONTROL: u8 = 0x40;

pub const NETWORK_CONTROL: u8 = 0x20;

pub const RESERVED_BIT_3: u8 = 0x10;

pub const FORMAT: u8 = 0x08;

pub const SENSE: u8 = 0x04;

pub const FIRST: u8 = 0x02;

pub const LAST: u8 = 0x01;

// Byte 1: DR1 and DR2; exception, in a response negative; queued response; pacing; and three reserved bits. A request asks for no
// confirmation by DR1 with the exception bit, and for one by DR2 alone.
pub const DR1: u8 = 0x80;

pub const RESERVED_BIT_1: u8 = 0x40;

pub const DR2: u8 = 0x20;

pub const EXCEPTION: u8 = 0x10;

pub const RESERVED_BIT_4: u8 = 0x08;

pub const RESERVED_BIT_5: u8 = 0x04;

pub const QUEUED_RESPONSE: u8 = 0x02;

pub const PACING: u8 = 0x01;

// Byte 2: begin bracket; end bracket, which LU type 6.2 does not use; change direction; a reserved bit, of the same weight as byte 0's;
// code selection; enciphered; padded; conditional end bracket, document 01's end bracket.
pub const BB: u8 = 0x80;

pub const EB: u8 = 0x40;

pub const CD: u8 = 0x20;

pub const CODE_SELECTION: u8 = 0x08;

pub const ENCIPHERED: u8 = 0x04;

pub const PADDED: u8 = 0x02;

pub const CEB: u8 = 0x01;
