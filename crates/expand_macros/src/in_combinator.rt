// The calls of a combinator, one after the other: the bytes between are copied, and a known macro's call is expanded. The place after is one past
// out's end where not all fits, as in `buffer::writes`: an Option in its place would be tested after each write, and this is tested after the last.
ghost use Rattle.expand_macros.specs.in_combinator.Expand.{MacroOf, Expanding};

use crate::known_macros::Macros;
use crate::replace_call::Call;
use buffer::writes::put_part;
use layout::items::{byte, past};
use layout::lookup::name_at;
use layout::tags::MACRO_INVOCATION;

// The macro that is called at a place.
#[tactic(auto, using(crate::proofs::in_combinator::Expanding::found_macro, crate::proofs::in_combinator::Expanding::no_macro))]
fn macro_of(book: &[u8], call: usize, macros: Macros<'_>) -> Option<usize>
    ensures { MacroOf book.now call macros.entry result }
{
    let tag = byte(book, call);
    let a = past(book, call, 1);
    if tag == MACRO_INVOCATION {
        return macros.find(name_at(book, a));
    }
    None
}

// The combinator that stands in the book from `from` up to `to`, expanded, from place `start` of out on. The marks are the place and the end of
// each of its calls; instances are made in the areas, and row takes the marks of these. What is put in is not looked into again.
pub(crate) fn expand_macros_in_combinator(
    macros: Macros<'_>,
    book: &[u8],
    from: usize,
    to: usize,
    marks: &[u16],
    areas: &mut [u8],
    row: &mut [u16],
    out: &mut [u8],
    start: usize,
) -> usize
    ensures { Expanding macros.entry book.now to marks.now areas.old out.old from start out.new result }
{
    let mut copied = from;
    let mut o = start;
    for pair in marks.chunks_exact(2) {
        let at = usize::from(pair[0]);
        if let Some(def) = macro_of(book, at, macros) {
            let call = Call {
                macros: macros.book,
                def,
                book,
                at,
            };
            let q = put_part(book, copied, at, out, o);
            o = call.expand(areas, row, out, q);
            copied = usize::from(pair[1]);
            if out.len() < o {
                return o;
            }
        }
    }
    put_part(book, copied, to, out, o)
}
