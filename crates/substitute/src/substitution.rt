// Substitution of one parameter on validated bytes: document 01's "Macro rules", 4.
ghost use Rattle.std.specs.Prelude.{◌≡◌};
ghost use Rattle.buffer.specs.writes.Buf.{Wrote};
ghost use Rattle.buffer.specs.areas.First.{first};
ghost use Rattle.substitute.specs.substitution.Turned.{Turned};
ghost use Rattle.substitute.specs.substitution.Substituted.{calls_name_of, substituted};

use buffer::areas::{first_area, put_across, put_back};
use buffer::parts::{first, part};
use buffer::writes::put_bytes;
use layout::items::{byte, name_past, past};
use layout::lookup::{name_at, same_name};
use layout::tags::INVOCATION;
use walker::skip::{skip_over, walk_over};

// Whether what stands at a place is an Invocation of this name.
#[tactic(auto, unfolding(crate::specs::substitution::Substituted::calls_name_of))]
fn calls_name(s: &[u8], at: usize, name: &[u8]) -> bool
    ensures { result ≡ calls_name_of s.now at name.now }
{
    byte(s, at) == INVOCATION && same_name(name_at(s, past(s, at, 1)), name)
}

// The combinator that stands in the first area up to `to` is made anew in the second, with the argument for each call of the parameter. The marks
// are the place and the end of each of its calls. The argument goes there as it is, so it is not looked into.
fn substitute_in_combinator(
    areas: &mut [u8],
    to: usize,
    marks: &[u16],
    param: &[u8],
    arg: &[u8],
) -> usize
    ensures { Wrote areas.old 16384 (substituted (first areas.old) param.now arg.now to marks.now 0) areas.new result }
{
    let mut at = 0;
    let mut o = 16384;
    let (calls, _) = marks.as_chunks::<2>();
    for call in calls {
        let place = usize::from(call[0]);
        if calls_name(first_area(&areas[..]), place, param) {
            let q = put_across(areas, at, place, o);
            o = put_bytes(arg, areas, q);
            at = usize::from(call[1]);
        }
    }
    put_across(areas, at, to, o)
}

// Where the making of an instance stands: the places of the next parameter and of the next argument, the length of the combinator made so far and
// the number of its marks. The bytes go beside it, the macros' and the book's: two areas of them are written meanwhile.
#[derive(Clone, Copy)]
pub struct Turn {
    pub param: usize,
    pub arg: usize,
    pub len: usize,
    pub n: usize,
}

// One parameter's turn: the combinator in the first area is made anew in the second, and goes back to the first. None over 16,384 bytes or 64
// levels, or with more calls than the marks have room for.
pub(crate) fn substitute_next(
    macros: &[u8],
    book: &[u8],
    t: Turn,
    areas: &mut [u8],
    marks: &mut [u16],
) -> Option<Turn>
    ensures { Turned macros.now book.now areas.old marks.old t areas.new marks.new result }
{
    let end = skip_over(book, t.arg, marks).at;
    let o = substitute_in_combinator(
        areas,
        t.len,
        first(&marks[..], t.n),
        name_at(macros, t.param),
        part(book, t.arg, end),
    );
    if areas.len() < o {
        return None;
    }
    put_back(areas, o);
    let w = walk_over(first_area(&areas[..]), 0, 129, marks);
    if marks.len() < w.n || w.left < 65 {
        return None;
    }
    Some(Turn {
        param: name_past(macros, t.param),
        arg: end,
        len: w.at,
        n: w.n,
    })
}
