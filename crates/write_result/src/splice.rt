// The bytes from one place of the expanded book up to another, with the range of each lift that begins on the way replaced by its call. Every
// function is total on any bytes and any numbers.
ghost use Rattle.buffer.specs.writes.Buf.{Wrote};
ghost use Rattle.write_result.specs.splice.Model.{spliced};
ghost use Rattle.write_result.specs.tables.Lent.{tables_of};

use crate::invocation::put_call;
use crate::next_lift::next_lift;
use crate::tables::Tables;
use buffer::table::item;
use buffer::writes::put_part;

// The bytes from one place up to another, with the range of each lift that begins on the way replaced by its call. No iterator: where
// the next turn begins depends on the end of this turn's lift.
pub(crate) fn put_spliced(t: Tables<'_>, from: u16, to: usize, out: &mut [u8], at: usize) -> usize
    ensures { Wrote out.old at (spliced (tables_of t.entry) from to) out.new result }
{
    let mut gap = usize::from(from);
    let mut p = next_lift(t.number, gap + 1, to);
    let mut o = at;
    while p < to {
        let i = item(t.number, p, 0) - 1;
        let a = put_part(t.book, gap, p, out, o);
        o = put_call(t, i, out, a);
        gap = usize::from(t.row(i).end).max(p + 1);
        p = next_lift(t.number, gap, to);
    }
    put_part(t.book, gap, to, out, o)
}
