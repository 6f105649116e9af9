// Bytes that are written, at the bottom of all: every function is total, and says what each byte of the lent slice is afterwards.
// `parts`: parts of a slice. `table`: one item read and written. `writes`: items, numbers, names and parts put at a place, cut at the
// slice's end. `writer`: the book under construction, its buffer and its next free byte kept together, and an entry of its contents.
// `zeroing`: the work area after every call. `areas`: the two halves of the work area between which a substitution is made.
#![tactic(auto)]

pub mod areas;
pub mod parts;
pub mod table;
pub mod writer;
pub mod writes;
pub mod zeroing;
