// The book that is left: macros removed, order kept, contents made anew, and each format's body expanded. The areas, the marks and the row are
// lent apart: with all three in one struct each contract would say besides that its borrows stay the same, as those of `Writer` do.
ghost use Rattle.expand_macros.specs.pass.Left.{Formatted, Kept, Booked};

use crate::in_combinator::expand_macros_in_combinator;
use crate::known_macros::Macros;
use buffer::parts::first;
use buffer::writer::{Writer, put_entry};
use buffer::writes::put_part;
use layout::items::{name_past, past};
use layout::kinds::{FORMAT, MACRO};
use walker::definitions::{Entry, each_definition, params_past};
use walker::skip::walk_over;

// A format: its name and its parameters are copied, and its body is expanded. Over 64 levels it is refused, by a place past out's end: `Formatted`
// says so, and the caller gives code 6 for that too.
fn expand_format(
    macros: Macros<'_>,
    book: &[u8],
    at: usize,
    areas: &mut [u8],
    marks: &mut [u16],
    row: &mut [u16],
    out: &mut [u8],
    o: usize,
) -> usize
    ensures { Formatted macros.entry book.now at areas.old marks.old out.old o out.new result }
{
    let params = name_past(book, at);
    let body = params_past(book, params, marks);
    let q = put_part(book, at, body, out, o);
    let w = walk_over(book, body, 64, marks);
    let calls = first(&marks[..], w.n);
    let r = expand_macros_in_combinator(macros, book, body, w.at, calls, areas, row, out, q);
    if out.len() < r {
        return r;
    }
    let v = walk_over(&out[..], q, 129, marks);
    if v.left < 65 {
        return out.len() + 1;
    }
    r
}

// A definition that is kept: a format is expanded, any other is copied.
#[tactic(auto, using(crate::proofs::pass::Leftover::kept_format, crate::proofs::pass::Leftover::kept_copied))]
fn expand_definition(
    d: Entry,
    macros: Macros<'_>,
    book: &[u8],
    areas: &mut [u8],
    marks: &mut [u16],
    row: &mut [u16],
    out: &mut [u8],
    o: usize,
) -> usize
    ensures { Kept d macros.entry book.now areas.old marks.old out.old o out.new result }
{
    if d.kind == FORMAT {
        return expand_format(macros, book, d.at, areas, marks, row, out, o);
    }
    let end = past(book, d.at, usize::from(d.size));
    put_part(book, d.at, end, out, o)
}

// All definitions but the macros: entries go to out from its third byte on, bodies from `bodies` on. Where a body does not fit, none is written
// after it. The book under construction is one `Writer`: each turn calls functions on the slice and the place, and puts the place after into it.
pub(crate) fn expand_all(
    macros: Macros<'_>,
    book: &[u8],
    areas: &mut [u8],
    marks: &mut [u16],
    row: &mut [u16],
    out: &mut [u8],
    bodies: usize,
) -> usize
    ensures { Booked macros.entry book.now areas.old marks.old out.old bodies out.new result }
{
    let mut w = Writer::new(out, bodies);
    let mut e = 2;
    for d in each_definition(book) {
        if d.kind == MACRO {
            continue;
        }
        let o = w.at;
        let r = expand_definition(d, macros, book, areas, marks, row, &mut *w.buf, o);
        w.at = r;
        if w.buf.len() < r {
            return r;
        }
        e = put_entry(d.kind, o, r, &mut *w.buf, e);
    }
    w.at
}
