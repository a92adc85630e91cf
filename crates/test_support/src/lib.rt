// What the programs that make the calls share: the exact lengths of the buffers, the front of a buffer, bytes in hexadecimal.
#![tactic(auto)]

pub mod lengths;
pub mod parts;
pub mod print;
