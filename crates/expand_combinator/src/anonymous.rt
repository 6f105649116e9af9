// Whether a combinator is anonymous, by position over validated bytes.
ghost use Rattle.std.specs.Prelude.{◌≡◌};
ghost use Rattle.expand_combinator.specs.anonymous.Anonymous.{anonymous_at};

use layout::items::{byte, length_past, past, text_past};
use layout::tags::{ARRAY, BITS, CHOICE, ENUM, OPTION, STRUCT, VEC, WRAP};

// Whether the combinator at a place is anonymous, with so many levels left. Chains are not looked at.
#[tactic(auto, using(crate::proofs::anonymous::Level::level_none, crate::proofs::anonymous::Level::level_own, crate::proofs::anonymous::Level::level_wrap, crate::proofs::anonymous::Level::level_vec, crate::proofs::anonymous::Level::level_option, crate::proofs::anonymous::Level::level_array, crate::proofs::anonymous::Level::level_other))]
pub(crate) fn contains_anonymous_format(s: &[u8], at: usize, levels: usize) -> bool
    ensures { result ≡ anonymous_at levels s.now at }
{
    if levels == 0 {
        return false;
    }
    let a = past(s, at, 1);
    match byte(s, at) {
        BITS | STRUCT | ENUM | CHOICE => true,
        WRAP => contains_anonymous_format(s, text_past(s, a), levels - 1),
        VEC | OPTION => contains_anonymous_format(s, a, levels - 1),
        ARRAY => contains_anonymous_format(s, length_past(s, a), levels - 1),
        _ => false,
    }
}
