// A call of a macro, replaced (document 01's "Macro rules", 3): the instance is made between two areas, and its inner goes to the book under construction.
ghost use Rattle.std.specs.Prelude.{true};
ghost use Rattle.buffer.specs.writes.Buf.{part, Wrote};
ghost use Rattle.buffer.specs.areas.First.{first};
ghost use Rattle.walker.specs.walk.Steps.{walk};
ghost use Rattle.walker.specs.calls.Walk.{skip_at};
ghost use Rattle.expand_macros.specs.replace_call.Call.{Opened, Makes, Called};

use buffer::areas::first_area;
use buffer::writes::put_part;
use layout::items::{name_past, names_past, number, past};
use substitute::instance::{instance, pairs};
use substitute::substitution::Turn;
use walker::skip::{skip_over, walk_over};

// A call of a macro: where the macro is defined in its book, and where the call stands in the book that is expanded.
#[derive(Clone, Copy)]
pub(crate) struct Call<'a> {
    pub macros: &'a [u8],
    pub def: usize,
    pub book: &'a [u8],
    pub at: usize,
}

impl Call<'_> {
    // The body of the macro goes to the first area, and the first turn is that of its first parameter and the call's first argument. None where
    // the body has more calls than the marks have room for.
    fn opened(self, areas: &mut [u8], marks: &mut [u16]) -> Option<Turn>
        ensures { Opened self.entry.macros.now self.entry.def self.entry.book.now self.entry.at areas.old marks.old areas.new marks.new result }
    {
        let p = name_past(self.macros, self.def);
        let k = number(self.macros, p);
        let first = past(self.macros, p, 2);
        let body = names_past(self.macros, first, k);
        let u = walk_over(self.macros, body, 64, marks);
        put_part(self.macros, body, u.at, areas, 0);
        let w = walk_over(first_area(&areas[..]), 0, 129, marks);
        let q = past(self.book, self.at, 1);
        let j = name_past(self.book, q);
        let arg = past(self.book, j, 2);
        if marks.len() < w.n {
            return None;
        }
        Some(Turn {
            param: first,
            arg,
            len: w.at,
            n: w.n,
        })
    }

    // The instance, in the first area; none over a limit, or with more calls on the way than the marks have room for.
    #[tactic(auto, using(crate::proofs::replace_call::Opening::makes_none, crate::proofs::replace_call::Opening::makes_some))]
    fn make_instance(self, areas: &mut [u8], marks: &mut [u16]) -> Option<Turn>
        ensures { Makes self.entry.macros.now self.entry.def self.entry.book.now self.entry.at areas.old marks.old areas.new marks.new result }
    {
        let t = self.opened(areas, marks)?;
        let n = pairs(self.macros, self.def, self.book, self.at);
        instance(self.macros, self.book, t, n, areas, marks)
    }

    // An instance that may have as many calls on the way as the limits let there be. Where there is none, that is a place past out's end: `Called`
    // says so.
    fn expand_longer(self, areas: &mut [u8], out: &mut [u8], o: usize) -> usize
        ensures { Called self.entry.macros.now self.entry.def self.entry.book.now self.entry.at areas.old out.old o out.new result }
    {
        let mut marks = [0u16; 8192];
        if self.make_instance(areas, &mut marks).is_some() {
            return put_inner(&areas[..], &mut marks, out, o);
        }
        out.len() + 1
    }

    // Writes the inner of the instance. Where the marks have too little room for it, it is made once more with marks of its own.
    #[tactic(auto, using(crate::proofs::replace_call::Opening::called_done, crate::proofs::replace_call::Opening::called_after))]
    pub fn expand(self, areas: &mut [u8], marks: &mut [u16], out: &mut [u8], o: usize) -> usize
        ensures { Called self.entry.macros.now self.entry.def self.entry.book.now self.entry.at areas.old out.old o out.new result }
    {
        if self.make_instance(areas, marks).is_some() {
            return put_inner(&areas[..], marks, out, o);
        }
        self.expand_longer(areas, out, o)
    }
}

// The inner of what stands in the first area. The body's own chain stays behind.
fn put_inner(areas: &[u8], marks: &mut [u16], out: &mut [u8], o: usize) -> usize
    ensures { Wrote out.old o (part 0 (skip_at 64 (first areas.now) (walk 0 0 64 true) marks.old).0.at (first areas.now)) out.new result }
{
    let u = skip_over(first_area(areas), 0, marks);
    put_part(first_area(areas), 0, u.at, out, o)
}
