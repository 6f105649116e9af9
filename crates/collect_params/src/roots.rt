// The names that are used, by position over validated bytes: each is recorded unless a label in force has it.
ghost use Rattle.std.specs.Prelude.{◌≡◌};
ghost use Rattle.collect_params.specs.roots.Recorded.{is_bound_of, name_by, names_by, length_by, call_by, selector_by};

use crate::labels::Labels;
use crate::scope::Walk;
use crate::uses::{name_of_use, use_at};
use buffer::writes::put_item;
use layout::flags::MORE;
use layout::items::{byte, name_past, number, past, text_past};

// Whether a use means one of the first b labels that are bound.
#[tactic(auto, unfolding(crate::specs::roots::Recorded::is_bound_of))]
fn is_bound(s: &[u8], x: u32, bound: &[u32], b: usize) -> bool
    ensures { result ≡ is_bound_of s.now x bound.now b }
{
    let labels = Labels { s, table: bound, b };
    labels.has(name_of_use(s, x))
}

// A name: recorded, unless it is bound. It is used up to its first '.' or as it stands: the flag is the one of `use_at_of`.
#[tactic(auto, unfolding(crate::specs::roots::Recorded::name_by))]
fn name(s: &[u8], w: Walk, cut: bool, bound: &[u32], uses: &mut [u32]) -> Walk
    ensures { (result ≡ (name_by s.now cut bound.now w uses.old).0) × (uses.new ≡ (name_by s.now cut bound.now w uses.old).1) }
{
    let x = use_at(s, w.at, cut);
    let e = name_past(s, w.at);
    if is_bound(s, x, bound, w.b) {
        return w.moved(e);
    }
    w.counted(e, put_item(x, uses, w.n))
}

// A count, and as many names.
#[tactic(auto, using(crate::proofs::roots::Level::start_uses, crate::proofs::roots::Level::more_uses, crate::proofs::roots::Level::done_uses), unfolding(crate::specs::roots::Recorded::names_by))]
fn names(s: &[u8], w: Walk, cut: bool, bound: &[u32], uses: &mut [u32]) -> Walk
    ensures { (result ≡ (names_by s.now cut bound.now w uses.old).0) × (uses.new ≡ (names_by s.now cut bound.now w uses.old).1) }
{
    let k = number(s, w.at);
    let mut here = w.moved(past(s, w.at, 2));
    for _ in 0..k {
        here = name(s, here, cut, bound, uses);
    }
    here
}

// A length: its roots are used as they stand.
#[tactic(auto, unfolding(crate::specs::roots::Recorded::length_by))]
pub(crate) fn roots(s: &[u8], w: Walk, bound: &[u32], uses: &mut [u32]) -> Walk
    ensures { (result ≡ (length_by s.now bound.now w uses.old).0) × (uses.new ≡ (length_by s.now bound.now w uses.old).1) }
{
    let v = names(s, w, false, bound, uses);
    v.moved(text_past(s, v.at))
}

// An Invocation behind its tag.
#[tactic(auto, unfolding(crate::specs::roots::Recorded::call_by))]
pub(crate) fn call(s: &[u8], w: Walk, bound: &[u32], uses: &mut [u32]) -> Walk
    ensures { (result ≡ (call_by s.now bound.now w uses.old).0) × (uses.new ≡ (call_by s.now bound.now w uses.old).1) }
{
    names(s, w.moved(name_past(s, w.at)), true, bound, uses)
}

// A Choice's selector: nothing, or a use that is cut at its first '.'.
#[tactic(auto, unfolding(crate::specs::roots::Recorded::selector_by))]
pub(crate) fn selector(s: &[u8], w: Walk, bound: &[u32], uses: &mut [u32]) -> Walk
    ensures { (result ≡ (selector_by s.now bound.now w uses.old).0) × (uses.new ≡ (selector_by s.now bound.now w uses.old).1) }
{
    let v = w.moved(past(s, w.at, 1));
    if byte(s, w.at) == MORE {
        return name(s, v, true, bound, uses);
    }
    v
}
