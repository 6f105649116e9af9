// The walk over a combinator: where it stands, and its single steps that record nothing.
ghost use Rattle.std.specs.Prelude.{◌≡◌, true};
ghost use Rattle.walker.specs.walk.Steps.{walk, moved, entered, chained_to_of, silent, back, text_or_length_of};

use layout::items::{length_past, stands_on, text_past};
use layout::tags::BYTES;

// Where the walk stands: its place, how many numbers are recorded, the fewest levels that were left on the way, and whether
// every chain so far stands on Bytes or Tail. `plain` is a state that the walk goes on with, beside no value that may be missing.
#[derive(Clone, Copy)]
pub struct Walk {
    pub at: usize,
    pub n: usize,
    pub left: usize,
    pub plain: bool,
}

impl Walk {
    // A walk that begins at a place, with so many levels left.
    pub(crate) fn begin(at: usize, left: usize) -> Walk
        ensures { result ≡ walk at 0 left true }
    {
        Walk {
            at,
            n: 0,
            left,
            plain: true,
        }
    }

    // The same walk at another place.
    pub(crate) fn moved(self, at: usize) -> Walk
        ensures { result ≡ moved self at }
    {
        Walk { at, ..self }
    }

    // At another place, with so many levels left there.
    pub(crate) fn entered(self, at: usize, levels: usize) -> Walk
        ensures { result ≡ entered self at levels }
    {
        Walk {
            at,
            left: self.left.min(levels),
            ..self
        }
    }

    // Behind the flag of a chain that stands on an inner with this tag.
    // All fields by name: with `..self`, or with `&&` for the flag, the whole walk takes a fifth longer.
    #[tactic(auto, unfolding(crate::specs::walk::Steps::chained_to_of))]
    pub(crate) fn chained_to(self, tag: u8) -> Walk
        ensures { result ≡ chained_to_of self tag }
    {
        if stands_on(tag) {
            return self;
        }
        Walk {
            at: self.at,
            n: self.n,
            left: self.left,
            plain: false,
        }
    }

    // At another place and with another count of recorded numbers. A count past the row's end stands in for a flag: `put_item` writes
    // nothing then, so no step has to ask.
    pub(crate) fn silent(self, at: usize, n: usize) -> Walk
        ensures { result ≡ silent self at n }
    {
        Walk { at, n, ..self }
    }

    // This walk behind what `over` went over with nothing recorded: the place and the levels are those of `over`.
    pub(crate) fn back(self, over: Walk) -> Walk
        ensures { result ≡ back self over }
    {
        Walk {
            at: over.at,
            left: over.left,
            ..self
        }
    }
}

// What stands behind the tag of an inner that holds no combinator: a length in Bytes, else a text.
#[tactic(auto, unfolding(crate::specs::walk::Steps::text_or_length_of))]
pub fn text_or_length(s: &[u8], at: usize, tag: u8) -> usize
    ensures { result ≡ text_or_length_of s.now at tag }
{
    if tag == BYTES {
        length_past(s, at)
    } else {
        text_past(s, at)
    }
}
