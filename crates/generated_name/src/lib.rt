// Document 01, "Bases": the Rust's `generated_segment`, `child_generated_name` and `fresh_generated_name`. Code 9 is a name that does not fit.
// `segment`: a label's segment by a table of 256 bytes, and a number in digits. `child_name`: a node's name with a segment behind it.
// `fresh_name`: "the base if free, else base_0, base_1.. first free".
#![tactic(auto)]

pub mod child_name;
pub mod fresh_name;
pub mod segment;
