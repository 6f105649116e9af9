// A table that has a number for each place, 0 where there is none: the next place that has one.
ghost use Rattle.std.specs.Prelude.{◌≡◌};
ghost use Rattle.write_result.specs.next_lift.Next.{past_empty_of, next_lift_of};

use buffer::table::item;

// The first place from `from` on at which 64 entries below `to` are not all 0, or fewer than 64 are left. So many are compared at once, since most
// places of a book with long texts have no lift. A turn stops at the first 64 that are not all 0, wherever they begin: `chunks` would give the
// piece and not its place.
fn past_empty(number: &[u16], from: usize, to: usize) -> usize
    ensures { result ≡ past_empty_of number.now from to }
{
    let none = [0; 64];
    let end = to.min(number.len());
    let mut p = from;
    while p < end && number[p..end].starts_with(&none) {
        p += 64;
    }
    p
}

// The first place from `from` on and below `to` at which a lift begins, or the end of this range: `next_lift_of`, over which
// `spliced` is defined, says none by that end.
pub(crate) fn next_lift(number: &[u16], from: usize, to: usize) -> usize
    ensures { result ≡ next_lift_of number.now from to }
{
    let start = past_empty(number, from, to);
    for p in start..to {
        if item(number, p, 0) != 0 {
            return p;
        }
    }
    start.max(to)
}
