// Document 02 b: the pass of document 01 again on its result, "until no known macro call stands where the pass reaches". Codes 6 and 12.
// `unknown`: no marked call is one of a known macro. `settled`: none in the whole book. `passes`: at most 16 of them.
#![tactic(auto)]

pub mod passes;
mod settled;
mod unknown;
