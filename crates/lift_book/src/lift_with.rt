// From the expanded book to the result: the lifts are named, then the result is written. Codes 7 to 11.
ghost use Rattle.std.specs.Prelude.{◌≤◌, length};
ghost use Rattle.lift_tables.specs.tables.Parts.{order_in, rows_in_of, params_in, made_in};
ghost use Rattle.what_comes_back.specs.Elaborates.{Expanded, Lifts};
ghost use Rattle.write_result.specs.result.Held.{Writes};
ghost use Rattle.write_result.specs.result.Model.{tables};
ghost use Rattle.lift_book.specs.lift_with.Lent.{Lent};

use expand_combinator::body::Named;
use expand_definitions::naming_pass::expand_definitions;
use lift_tables::tables::{NAMES, PARAMS, ROWS};
use what_comes_back::{Code, Elaborated, Refusal};
use write_result::result::write_result;
use write_result::tables::Tables;

// The result, from the parts of the sheet.
fn write_parts(s: &[u8], sheet: &[u8], number: &[u16], n: u16, out: &mut [u8]) -> usize
    requires { 32360 ≤ length sheet.now }
    ensures { Writes (tables s.now (made_in sheet.now) (rows_in_of sheet.now) (params_in sheet.now) number.now) (order_in sheet.now) n out.old out.new result }
{
    let t = Tables {
        book: s,
        names: &sheet[NAMES..],
        rows: &sheet[ROWS..PARAMS],
        params: &sheet[PARAMS..NAMES],
        number,
    };
    write_result(t, &sheet[..ROWS], n, out)
}

// Codes 7 to 11, with the tables lent whose length the book's gives, and a sheet with room for as many lifts, parameters and generated names as code
// 10 lets there be. The tables go apart: see expand_combinator::body. The numbers fit into 16 bits: no result has over 16,384 bytes.
pub(crate) fn lift_with(
    s: &[u8],
    ends: &[u16],
    number: &mut [u16],
    binders: &mut [u16],
    bound: &mut [u32],
    uses: &mut [u32],
    spare: &mut [u32],
    sheet: &mut [u8],
    out: &mut [u8],
) -> Result<Elaborated, Refusal>
    requires { Expanded s.now × Lent s.now ends.now number.old binders.old bound.old uses.old spare.old × (40552 ≤ length sheet.old) }
    ensures { Lifts s.now out.old out.new result }
{
    let Named { counts, finished } = expand_definitions(
        s, ends, binders, bound, uses, spare, sheet, number,
    )?;
    if out.len() < counts.bytes {
        return Err(Refusal::from(Code::OutputShort));
    }
    let lifted = finished as u16;
    write_parts(s, &sheet[..], &number[..], lifted, out);
    Ok(Elaborated {
        length: counts.bytes as u16,
        definitions: counts.defns as u16,
        lifted,
    })
}
