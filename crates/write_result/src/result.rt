// The writing pass: the finished book from the expanded book and the tables that the naming pass leaves. It goes in layout order, writes each
// body once at its final place, and cannot fail: every function is total on any bytes and any numbers.
ghost use Rattle.std.specs.Prelude.{◌+◌};
ghost use Rattle.buffer.specs.writes.Buf.{Wrote};
ghost use Rattle.lift_tables.specs.tables.Parts.{pairs};
ghost use Rattle.write_result.specs.tables.Lent.{tables_of};
ghost use Rattle.write_result.specs.result.Model.{kept_bytes, kept_from, lifted_from, definitions_from};
ghost use Rattle.write_result.specs.result.Adds.{Adds};
ghost use Rattle.write_result.specs.result.Held.{Writes};

use crate::lifted::put_lifted;
use crate::splice::put_spliced;
use crate::tables::Tables;
use buffer::writer::{Writer, put_entry};
use buffer::writes::put_u16;
use layout::items::byte;
use layout::kinds::FORMAT;
use lift_tables::tables::pair;

// The body of kept definition i.
#[tactic(auto, using(crate::proofs::result::Adds::kept_is))]
fn put_kept(t: Tables<'_>, i: u16, out: &mut [u8], at: usize) -> usize
    ensures { Wrote out.old at (kept_bytes (tables_of t.entry) i) out.new result }
{
    let base = 2 + 6 * usize::from(i);
    let from = layout::items::number(t.book, base + 2);
    let n = layout::items::number(t.book, base + 4);
    let to = usize::from(from) + usize::from(n);
    put_spliced(t, from, to, out, at)
}

// Kept definition i, its body at o: body and entry.
fn add_kept(t: Tables<'_>, i: u16, out: &mut [u8], o: usize) -> usize
    ensures { Adds out.old i o (kept_from (tables_of t.entry) i 1) out.new result }
{
    let at = 2 + 6 * usize::from(i);
    let kind = byte(t.book, at);
    let end = put_kept(t, i, out, o);
    put_entry(kind, o, end, out, at);
    end
}

// The definition of the i-th lift of `order`, its entry behind `kept` others, its body at o.
fn add_lifted(t: Tables<'_>, order: &[u8], i: u16, kept: u16, out: &mut [u8], o: usize) -> usize
    ensures { Adds out.old (kept + i) o (lifted_from (tables_of t.entry) (pairs order.now) i 1) out.new result }
{
    let k = pair(order, usize::from(i));
    let end = put_lifted(t, k, out, o);
    let at = usize::from(kept) + usize::from(i);
    put_entry(FORMAT, o, end, out, 2 + 6 * at);
    end
}

// All definitions of the result, one after the other: the kept ones, then the n lifts. The book under construction is one `Writer`: each turn takes
// it apart, since document 01 asks for a struct over the lent buffer with few thin functions that call covered ones on slice and number. By index:
// `kept_from` reads entry i on any bytes, and `each_definition` stops where the book does.
fn add_all(t: Tables<'_>, order: &[u8], kept: u16, n: u16, out: &mut [u8], at: usize) -> usize
    ensures { Adds out.old 0 at (definitions_from (tables_of t.entry) (pairs order.now) kept (kept + n) 0) out.new result }
{
    let mut w = Writer::new(out, at);
    for i in 0..kept {
        let o = w.at;
        w.at = add_kept(t, i, &mut *w.buf, o);
    }
    for i in 0..n {
        let o = w.at;
        w.at = add_lifted(t, order, i, kept, &mut *w.buf, o);
    }
    w.at
}

// The finished book: the expanded book's definitions with their calls, then those of the n lifts. The contract speaks of tables that the
// naming pass left; on any others it writes something else, and no more.
pub fn write_result(t: Tables<'_>, order: &[u8], n: u16, out: &mut [u8]) -> usize
    ensures { Writes (tables_of t.entry) (pairs order.now) n out.old out.new result }
{
    let kept = layout::items::number(t.book, 0);
    let all = usize::from(kept) + usize::from(n);
    put_u16((all % 65536) as u16, out, 0);
    add_all(t, order, kept, n, out, 2 + 6 * all)
}
