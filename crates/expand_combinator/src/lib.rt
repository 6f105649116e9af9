// The Rust's `expand_combinator`, with a frame for each of the 64 levels where it has a call stack.
// `anonymous`: `contains_anonymous_format`. `open_child`: a child is lifted or walked (`expand_child_combinator`). `waiters`: the frames
// above the one that is walked. `body`: the loop over them.
#![tactic(auto)]

mod anonymous;
pub mod body;
pub mod open_child;
mod waiters;
