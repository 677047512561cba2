//! What words spell: numbers in decimal and hexadecimal digits, IPv4 and Ethernet addresses, and the
//! parts of a text round a byte.
#![tactic(auto)]

pub mod number;
pub mod parts;

pub use number::{Numeral, hex_worth, is_hex_digit, number_of, numeral_of, value_of};
pub use parts::{cut, len_to};
