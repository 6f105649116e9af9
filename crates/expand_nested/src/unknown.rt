// The test that the calls that are marked are none of a known macro, with the macros in a table.
ghost use Rattle.expand_nested.specs.unknown.Calls.{UnknownAt, AllUnknown};

use expand_macros::known_macros::Macros;
use layout::items::{byte, past};
use layout::lookup::name_at;
use layout::tags::MACRO_INVOCATION;

// Whether the call at a place is none of a known macro. `expand_macros`' `macro_of` reads it the same way, but `MacroOf` tells only of a call that
// stands there, and allows None for a macro whose call becomes itself: `UnknownAt`, which holds of any bytes, stays open from it.
#[tactic(auto, using(crate::proofs::unknown::Calls::macro_tested, crate::proofs::unknown::Calls::other_unknown))]
fn is_unknown(macros: Macros<'_>, book: &[u8], call: usize) -> bool
    ensures { UnknownAt macros.entry book.now call result }
{
    let tag = byte(book, call);
    let a = past(book, call, 1);
    if tag == MACRO_INVOCATION {
        return macros.find(name_at(book, a)).is_none();
    }
    true
}

// The same of every call that is marked. premise's `all_known` is this loop with another test of a call: one function over a closure would need
// the closure's promise for every call as a clause, which is longer than the loop.
pub(crate) fn all_unknown(macros: Macros<'_>, book: &[u8], marks: &[u16]) -> bool
    ensures { AllUnknown macros.entry book.now marks.now result }
{
    for pair in marks.chunks_exact(2) {
        if !is_unknown(macros, book, usize::from(pair[0])) {
            return false;
        }
    }
    true
}
