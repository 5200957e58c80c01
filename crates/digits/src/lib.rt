// Decimal and hexadecimal digits: numbers and bytes read from text, and put into text. What is put is read back.
#![tactic(auto)]

pub mod decimal_read;
pub mod hexadecimal_read;
pub mod printed;
pub mod read_back;
