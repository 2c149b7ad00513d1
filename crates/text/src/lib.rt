// Numbers, and octets as hexadecimal digits, as text.
#![tactic(auto)]

mod digit;
pub mod hexadecimal;
pub mod number;
