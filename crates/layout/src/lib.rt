// Document 01, "The definition book", by place: going over bytes that were read before, with no refusal to hand on.
// `items`: the place behind each item of the layout, and the number or byte that stands there. `lookup`: a name as a part of the book or of the
// generated names. `hash`: the bits by which names are told apart. `tags`: the tags of inners. `kinds`: the kinds of definitions, of fields
// and of cases. `flags`: the byte before what may be left out.
#![tactic(auto)]

pub mod flags;
pub mod hash;
pub mod items;
pub mod kinds;
pub mod lookup;
pub mod tags;
