// Text as every program writes and reads it: bytes as they are, hex, decimal, a line. What is put is put whole or not at all, and puts that ran out of
// room end at the output's end: whoever needs to know lends a byte more than the text has.
#![tactic(auto)]

mod decimal;
mod digits;
mod hex;
mod plain;

pub use decimal::{put_decimal, read_decimal};
pub use hex::{put_hex, put_line, read_hex};
pub use plain::put;
