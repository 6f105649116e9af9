// The steps of a walk that leave marks of calls.
ghost use Rattle.std.specs.Prelude.{◌≡◌};
ghost use Rattle.walker.specs.marks.Steps.{mark_at, call_at};

use crate::walk::Walk;
use buffer::writes::put_item;
use layout::items::{list_past, name_past};

// A call that stands at `at` and ends at `end` is recorded, and the walk goes on behind it. Two numbers a call, and no pair of them: the
// contract of `walk_over` says what stands in the row when only one of them fits.
pub(crate) fn mark(w: Walk, at: usize, end: usize, marks: &mut [u16]) -> Walk
    ensures { (result ≡ (mark_at w at end marks.old).0) × (marks.new ≡ (mark_at w at end marks.old).1) }
{
    let next = put_item((at % 65536) as u16, marks, w.n);
    let n = put_item((end % 65536) as u16, marks, next);
    Walk { at: end, n, ..w }
}

// An Invocation whose tag stands at `at`; the walk stands behind the tag.
#[tactic(auto, unfolding(crate::specs::marks::Steps::call_at))]
pub(crate) fn call(s: &[u8], w: Walk, at: usize, marks: &mut [u16]) -> Walk
    ensures { (result ≡ (call_at s.now w at marks.old).0) × (marks.new ≡ (call_at s.now w at marks.old).1) }
{
    let end = list_past(s, name_past(s, w.at));
    mark(w, at, end, marks)
}
