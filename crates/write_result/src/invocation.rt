// The Invocation of a lift, from the tables of the naming pass. Every function is total on any bytes and any numbers.
ghost use Rattle.std.specs.Prelude.{◌≡◌, [], ◌++◌};
ghost use Rattle.definition.specs.Write.{w_u16};
ghost use Rattle.buffer.specs.writes.Buf.{Wrote};
ghost use Rattle.lift_tables.specs.tables.Parts.{pairs};
ghost use Rattle.lift_tables.specs.tables.Rows.{names_from};
ghost use Rattle.write_result.specs.invocation.Invocation.{names_bytes, called_bytes, call_bytes, bytes_from};
ghost use Rattle.write_result.specs.splice.Model.{row};
ghost use Rattle.write_result.specs.tables.Lent.{tables_of};

use crate::tables::{Param, Tables};
use buffer::parts::part;
use buffer::writes::{put_byte, put_name, put_u16};
use layout::lookup::name_at;
use layout::tags::INVOCATION;

// A parameter's name.
#[tactic(auto, unfolding(buffer::specs::writes::Buf::part))]
pub(crate) fn param_name(book: &[u8], p: Param) -> &[u8]
    ensures { result.now ≡ bytes_from book.now p.name p.length }
{
    let first = usize::from(p.name);
    part(book, first, first + usize::from(p.length))
}

// A count, and the names of as many parameters.
fn put_names(t: Tables<'_>, first: u16, count: u16, out: &mut [u8], at: usize) -> usize
    ensures { Wrote out.old at (w_u16 count [] ++ names_bytes (names_from t.entry.book.now (pairs t.entry.params.now) first count)) out.new result }
{
    let start = usize::from(first);
    let mut o = put_u16(count, out, at);
    for j in start..start + usize::from(count) {
        let p = t.param(j);
        o = put_name(param_name(t.book, p), out, o);
    }
    o
}

// The Invocation of lift i.
pub(crate) fn put_called(t: Tables<'_>, i: u16, out: &mut [u8], at: usize) -> usize
    ensures { Wrote out.old at (called_bytes (row (tables_of t.entry) i)) out.new result }
{
    let r = t.row(i);
    let name = name_at(t.names, usize::from(r.name));
    let a = put_byte(INVOCATION, out, at);
    let b = put_name(name, out, a);
    put_names(t, r.first, r.count, out, b)
}

// The call of lift i: its Invocation without a chain.
pub(crate) fn put_call(t: Tables<'_>, i: u16, out: &mut [u8], at: usize) -> usize
    ensures { Wrote out.old at (call_bytes (row (tables_of t.entry) i)) out.new result }
{
    let a = put_called(t, i, out, at);
    put_byte(0, out, a)
}
