// A lift of the naming pass: its name, its parameters and their binders, its row.
ghost use Rattle.std.specs.Prelude.{◌≡◌, ◌≤◌, length};
ghost use Rattle.lift_tables.specs.tables.Parts.{order_in, rows_in_of, params_in, made_in};
ghost use Rattle.lift_tables.specs.enter_lift.Bound.{bound_from, Sized};
ghost use Rattle.lift_tables.specs.enter_lift.Sheet.{Tables};
ghost use Rattle.lift_combinator.specs.naming.Lifts.{Some, Scratch, Lifts};

use collect_params::params::lift_params;
use generated_name::fresh_name::fresh_generated_name;
use lift_tables::enter_lift::{Counts, Lifted, enter_lift};
use lift_tables::tables::NAMES;
use name_table::find::Names;
use what_comes_back::Code;

// A lift: the length of its name in the path, the size of its call, and the counts with it.
#[derive(Clone, Copy)]
pub struct Lift {
    pub len: usize,
    pub call: usize,
    pub counts: Counts,
}

// The combinator from `at` up to `end` is lifted; path holds its base in its first `len` bytes, and then its name (no heap). Codes 9, 7, 8, 10 in this
// order. The tables that are written go one by one: `Tables` and `Scratch` ask for lengths at the least (what may not change), which arrays in a
// struct would fix, and a struct of slices would need a clause for each borrow in every contract.
pub fn lift_anonymous_combinator(
    s: &[u8],
    at: usize,
    end: usize,
    path: &mut [u8],
    len: usize,
    binders: &[u16],
    b: usize,
    bound: &mut [u32],
    uses: &mut [u32],
    spare: &mut [u32],
    sheet: &mut [u8],
    places: &mut [u16],
    ways: &mut [u32],
    hints: &mut [u16],
    number: &mut [u16],
    w: Counts,
) -> Result<Lift, Code>
    requires { Tables s.now (made_in sheet.old) places.old ways.old hints.old (rows_in_of sheet.old) (params_in sheet.old) w × Some s.now at end × Scratch s.now bound.old uses.old spare.old × (length path.old ≡ 255) × (b ≤ 65536) × Sized binders.now b }
    ensures { Lifts s.now at end path.old len (bound_from s.now binders.now 0 b) (made_in sheet.old) places.old (rows_in_of sheet.old) (params_in sheet.old) number.old w path.new (made_in sheet.new) places.new ways.new hints.new (rows_in_of sheet.new) (params_in sheet.new) number.new result × (order_in sheet.new ≡ order_in sheet.old) }
{
    let names = Names {
        book: s,
        made: &sheet[NAMES..],
        places: &places[..],
        ways: &ways[..],
        n: w.taken,
    };
    let n = fresh_generated_name(path, len, names, hints);
    // A length past the path's end is code 9: see `fresh_generated_name`.
    if path.len() < n {
        return Err(Code::NameLong);
    }
    let k = lift_params(s, at, bound, uses, spare)?;
    let Lifted { call, counts } = enter_lift(
        s,
        at,
        end,
        &path[..n],
        &uses[..k],
        binders,
        b,
        sheet,
        places,
        ways,
        hints,
        number,
        w,
    )?;
    Ok(Lift {
        len: n,
        call,
        counts,
    })
}
