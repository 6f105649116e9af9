// The definition of a lift, from the tables that the naming pass leaves: its name, its parameters with their types, and the combinator moved.
// Every function is total on any bytes and any numbers.
ghost use Rattle.std.specs.Prelude.{◌≡◌, [], ◌++◌, ◌≤◌};
ghost use Rattle.definition.specs.Write.{w_u16};
ghost use Rattle.buffer.specs.writes.Buf.{Wrote, name_bytes};
ghost use Rattle.lift_tables.specs.tables.Parts.{pairs};
ghost use Rattle.lift_tables.specs.tables.Rows.{names_from, types_from};
ghost use Rattle.write_result.specs.invocation.Invocation.{param_name_of};
ghost use Rattle.write_result.specs.splice.Model.{row};
ghost use Rattle.write_result.specs.tables.Lent.{tables_of};
ghost use Rattle.write_result.specs.lifted.Model.{param_type, type_bytes, params_bytes, lifted_bytes};

use crate::invocation::{param_name, put_called};
use crate::splice::put_spliced;
use crate::tables::{Param, Tables};
use buffer::table::item;
use buffer::writes::{put_name, put_part, put_u16};
use layout::lookup::name_at;
use walker::ends::inner_end;

// The type of a parameter: a parameter's own, copied; of a Dependent field its inner, or the Invocation where its combinator is lifted itself.
fn put_type(t: Tables<'_>, p: Param, out: &mut [u8], at: usize) -> usize
    ensures { Wrote out.old at (type_bytes (tables_of t.entry) (record { own = p.own; at = p.at })) out.new result }
{
    let from = usize::from(p.at);
    if p.own {
        let to = inner_end(t.book, from);
        return put_part(t.book, from, to, out, at);
    }
    match item(t.number, from, 0) {
        0 => {
            let to = inner_end(t.book, from);
            put_spliced(t, p.at, to, out, at)
        }
        k => put_called(t, k - 1, out, at),
    }
}

// Parameter j: its name and its type.
fn put_param(t: Tables<'_>, j: usize, out: &mut [u8], at: usize) -> usize
    requires { j ≤ 131070 }
    ensures { Wrote out.old at (name_bytes (param_name_of t.entry.book.now (pairs t.entry.params.now) j) ++ type_bytes (tables_of t.entry) (param_type (pairs t.entry.params.now) j)) out.new result }
{
    let p = t.param(j);
    let a = put_name(param_name(t.book, p), out, at);
    put_type(t, p, out, a)
}

// A count, and as many parameters.
fn put_params(t: Tables<'_>, first: u16, count: u16, out: &mut [u8], at: usize) -> usize
    ensures { Wrote out.old at (w_u16 count [] ++ params_bytes (tables_of t.entry) (names_from t.entry.book.now (pairs t.entry.params.now) first count) (types_from (pairs t.entry.params.now) first count)) out.new result }
{
    let start = usize::from(first);
    let mut o = put_u16(count, out, at);
    for j in start..start + usize::from(count) {
        o = put_param(t, j, out, o);
    }
    o
}

// The definition of lift i: its name, its parameters, and the combinator moved.
pub(crate) fn put_lifted(t: Tables<'_>, i: u16, out: &mut [u8], at: usize) -> usize
    ensures { Wrote out.old at (lifted_bytes (tables_of t.entry) (row (tables_of t.entry) i)) out.new result }
{
    let r = t.row(i);
    let name = name_at(t.names, usize::from(r.name));
    let a = put_name(name, out, at);
    let b = put_params(t, r.first, r.count, out, a);
    put_spliced(t, r.at, usize::from(r.end), out, b)
}
