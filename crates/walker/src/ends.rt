// Where the inner at a place ends: by walking over it, or by a table that remembers.
ghost use Rattle.std.specs.Prelude.{◌≡◌};
ghost use Rattle.walker.specs.ends.Ends.{inner_end_of, Right, Stood};

use crate::skip::skip_inner;
use crate::walk::Walk;
use buffer::table::item;

// Where the inner at a place ends. It has fewer levels than bytes.
#[tactic(auto, unfolding(crate::specs::ends::Ends::inner_end_of))]
pub fn inner_end(s: &[u8], at: usize) -> usize
    ensures { result ≡ inner_end_of s.now at }
{
    let mut none = [0u16; 1];
    skip_inner(s, Walk::begin(at, 0), s.len(), &mut none).at
}

// The same, by the table where it has an entry. 0 is none: no inner ends at place 0, and the table is lent, two bytes a place.
pub fn end_of(s: &[u8], ends: &[u16], at: usize) -> usize
    requires { Right s.now ends.now × Stood s.now at }
    ensures { result ≡ inner_end_of s.now at }
{
    match item(ends, at, 0) {
        0 => inner_end(s, at),
        end => usize::from(end),
    }
}
