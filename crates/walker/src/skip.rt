// Going over an inner with nothing recorded, and walks that start anew at a place.
ghost use Rattle.std.specs.Prelude.{◌≡◌, true};
ghost use Rattle.walker.specs.walk.Steps.{walk};
ghost use Rattle.walker.specs.calls.Walk.{combinator_at, skip_at};

use crate::calls::{combinator, inner};
use crate::walk::Walk;

// An inner with so many levels left below it, gone over with nothing recorded: a macro's argument, or a parameter's type.
#[tactic(auto, unfolding(crate::specs::calls::Walk::skip_at))]
pub(crate) fn skip_inner(s: &[u8], w: Walk, levels: usize, marks: &mut [u16]) -> Walk
    ensures { (result ≡ (skip_at levels s.now w marks.old).0) × (marks.new ≡ (skip_at levels s.now w marks.old).1) }
{
    let v = w.silent(w.at, marks.len() + 1);
    w.back(inner(s, v, levels, marks))
}

// Over the combinator at a place, with so many levels left; its calls go to the marks from the first on.
pub fn walk_over(s: &[u8], at: usize, levels: usize, marks: &mut [u16]) -> Walk
    ensures { (result ≡ (combinator_at levels s.now (walk at 0 levels true) marks.old).0) × (marks.new ≡ (combinator_at levels s.now (walk at 0 levels true) marks.old).1) }
{
    combinator(s, Walk::begin(at, levels), levels, marks)
}

// Over the inner at a place, with nothing recorded.
pub fn skip_over(s: &[u8], at: usize, marks: &mut [u16]) -> Walk
    ensures { (result ≡ (skip_at 64 s.now (walk at 0 64 true) marks.old).0) × (marks.new ≡ (skip_at 64 s.now (walk at 0 64 true) marks.old).1) }
{
    skip_inner(s, Walk::begin(at, 64), 64, marks)
}
