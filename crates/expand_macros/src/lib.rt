// Document 01, "Macro rules" 1 to 3 and 5: the Rust's `expand_macros`. Code 6.
// `kept`: the definitions that are no macros. `known_macros`: the macros of a book by name, the last definition of a name first.
// `replace_call`: a call of a macro replaced by its instance's inner. `in_combinator`: every call of a combinator
// (`expand_macros_in_combinator`). `pass`: a whole book, with the macros of that book or of another.
#![tactic(auto)]

mod in_combinator;
pub mod kept;
pub mod known_macros;
pub mod pass;
mod replace_call;
