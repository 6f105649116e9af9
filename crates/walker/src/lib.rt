// One walk over a combinator that was read, by place: what it passes and what it records.
// `walk`: where it stands, and its single steps. `marks`: the calls that it records. `calls`: the cycle over calls and chains, macro arguments
// left aside. `skip`: the same with nothing recorded. `pieces`: a combinator as the pieces between its calls, on trees. `definitions`: the
// definitions that the contents list, one after the other. `bodies`: a test of every format's body. `measure`, `measure_book`, `ends`: where
// each inner ends, found once for a book and looked up afterwards.
#![tactic(auto)]

pub mod bodies;
pub mod calls;
pub mod definitions;
pub mod ends;
pub mod marks;
mod measure;
pub mod measure_book;
pub mod pieces;
pub mod skip;
pub mod walk;
