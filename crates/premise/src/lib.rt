// Document 01, "Premise test". `called`: every marked call names a format or constant. `holds`: the test over an expanded book.
// `test`: over every byte string, with codes 1 to 6.
#![tactic(auto)]

mod called;
mod holds;
pub mod test;
