// Document 01, "Parameters": the Rust's `collect_params` and `sorted_params`. Code 7.
// `uses`: a use of a name, in one number. `labels`: the Dependent labels in force. `scope`: where the walk stands, and what it has met.
// `roots`: the uses in a length, a call and a selector. `collect`: the cycle over a combinator (`collect_params_with_bound`).
// `sort`: uses in the byte order of their names. `params`: each name once.
#![tactic(auto)]

pub mod collect;
mod labels;
pub mod params;
mod roots;
pub mod scope;
mod sort;
pub mod uses;
