// Document 01, "Macro rules" 4: the Rust's `substitute_in_combinator`.
// `substitution`: one parameter, everywhere in a macro's combinator. `instance`: one parameter after the other, with code 6 tested after each.
#![tactic(auto)]

pub mod instance;
pub mod substitution;
