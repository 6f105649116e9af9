// One lift of the naming pass: its parameters and their binders, its row, its name.
ghost use Rattle.std.specs.Prelude.{◌≡◌, ◌≤◌, ◌<◌, ◌+◌, ◌*◌, ◌/◌, ◌%◌, min, length};
ghost use Rattle.lift_tables.specs.tables.Rows.{with_param};
ghost use Rattle.lift_tables.specs.tables.Parts.{order_in, rows_in_of, params_in, made_in, Parts};
ghost use Rattle.collect_params.specs.uses.Uses.{names_in_of};
ghost use Rattle.lift_tables.specs.enter_lift.Bound.{bound_from, Sized, Builds};
ghost use Rattle.lift_tables.specs.enter_lift.Sheet.{Tables, with_row};
ghost use Rattle.lift_tables.specs.enter_lift.Enters.{Adds, Enters};

use crate::binders::{Binder, find_binder};
use crate::tables::{NAMES, PARAM_NUMBERS, PARAMS, ROW_NUMBERS, ROWS, store, store_in};
use collect_params::uses::name_of_use;
use name_table::taken::take_name;
use what_comes_back::Code;

// The sizes of the parameters' names and of their types.
#[derive(Clone, Copy)]
struct Sizes {
    names: usize,
    types: usize,
}

// How much the tables hold: names taken, the place after the last generated name, lifts, their parameters; and the book as code 10 measures it.
#[derive(Clone, Copy)]
pub struct Counts {
    pub taken: usize,
    pub end: usize,
    pub lifts: usize,
    pub params: usize,
    pub bytes: usize,
    pub defns: usize,
}

// A lift that was entered: the size of its call, and the counts with it.
#[derive(Clone, Copy)]
pub struct Lifted {
    pub call: usize,
    pub counts: Counts,
}

// The parameter number i, from the use that names it and the binder that types it.
fn put_param(x: u32, d: Binder, sheet: &mut [u8], i: usize)
    requires { i ≤ 1048576 }
    ensures { Parts sheet.new (order_in sheet.old) (rows_in_of sheet.old) (with_param (params_in sheet.old) i (min (x / 256) 65535) (x % 256) d.at d.own) (made_in sheet.old) }
{
    store_in(sheet, PARAMS, PARAM_NUMBERS, 4 * i, (x / 256) as usize);
    store_in(sheet, PARAMS, PARAM_NUMBERS, 4 * i + 1, (x % 256) as usize);
    store_in(sheet, PARAMS, PARAM_NUMBERS, 4 * i + 2, usize::from(d.at));
    store_in(sheet, PARAMS, PARAM_NUMBERS, 4 * i + 3, usize::from(d.own));
}

// The parameters of a lift, one for each of its uses, from number `first` on; none where one has no binder.
fn build_param_defns(
    s: &[u8],
    uses: &[u32],
    binders: &[u16],
    b: usize,
    sheet: &mut [u8],
    first: usize,
) -> Option<Sizes>
    requires { (b ≤ 65536) × (length uses.now ≤ 65536) × (first ≤ 65536) × Sized binders.now b }
    ensures { Builds s.now uses.now (length uses.now) (bound_from s.now binders.now 0 b) (params_in sheet.old) first (params_in sheet.new) result × Parts sheet.new (order_in sheet.old) (rows_in_of sheet.old) (params_in sheet.new) (made_in sheet.old) }
{
    let mut names = 0;
    let mut types = 0;
    for (i, &x) in uses.iter().enumerate() {
        let name = name_of_use(s, x);
        let binder = find_binder(s, name, binders, b)?;
        put_param(x, binder, sheet, first + i);
        names += 1 + name.len();
        types += usize::from(binder.size);
    }
    Some(Sizes { names, types })
}

// The row of lift number i. Its numbers are parameters: the one caller would make a struct of them for these five stores alone.
fn put_row(
    sheet: &mut [u8],
    i: usize,
    at: usize,
    end: usize,
    name: usize,
    first: usize,
    count: usize,
)
    requires { (i ≤ 65536) × (at ≤ 65535) × (end ≤ 65535) × (name ≤ 65535) × (first ≤ 65535) × (count ≤ 65535) }
    ensures { Parts sheet.new (order_in sheet.old) (with_row (rows_in_of sheet.old) i at end name first count) (params_in sheet.old) (made_in sheet.old) }
{
    store_in(sheet, ROWS, ROW_NUMBERS, 5 * i, at);
    store_in(sheet, ROWS, ROW_NUMBERS, 5 * i + 1, end);
    store_in(sheet, ROWS, ROW_NUMBERS, 5 * i + 2, name);
    store_in(sheet, ROWS, ROW_NUMBERS, 5 * i + 3, first);
    store_in(sheet, ROWS, ROW_NUMBERS, 5 * i + 4, count);
}

// The row of a lift with k parameters, its number at its place, and its name.
fn add_row(
    s: &[u8],
    name: &[u8],
    at: usize,
    end: usize,
    k: usize,
    sheet: &mut [u8],
    places: &mut [u16],
    ways: &mut [u32],
    hints: &mut [u16],
    number: &mut [u16],
    w: Counts,
    bytes: usize,
) -> Counts
    requires { (length name.now ≤ 255) × (at ≤ 65535) × (end ≤ 65535) × (w.params + k ≤ 65535) × (w.end < 32768) × (32360 + w.end + 1 + length name.now ≤ length sheet.old) × (w.lifts < 512) × (w.defns < 512) × (w.taken < 512) × (512 ≤ length places.old) × (512 ≤ length hints.old) }
    ensures { Adds s.now name.now at end k (made_in sheet.old) places.old ways.old hints.old (rows_in_of sheet.old) number.old w bytes (made_in sheet.new) places.new ways.new hints.new (rows_in_of sheet.new) number.new result × (order_in sheet.new ≡ order_in sheet.old) × (params_in sheet.new ≡ params_in sheet.old) }
{
    put_row(sheet, w.lifts, at, end, w.end, w.params, k);
    store(number, at, w.lifts + 1);
    let next = take_name(
        name,
        s,
        &mut sheet[NAMES..],
        w.end,
        places,
        ways,
        hints,
        w.taken,
    );
    Counts {
        taken: w.taken + 1,
        end: next,
        lifts: w.lifts + 1,
        params: w.params + k,
        bytes,
        defns: w.defns + 1,
    }
}

// A lift whose parameters are the uses: codes 8 and 10, then its row, its number at its place, and its name. The tables go one by one: see
// `lift_combinator::naming`.
#[tactic(auto, unfolding(crate::specs::enter_lift::Bound::Builds))]
pub fn enter_lift(
    s: &[u8],
    at: usize,
    end: usize,
    name: &[u8],
    uses: &[u32],
    binders: &[u16],
    b: usize,
    sheet: &mut [u8],
    places: &mut [u16],
    ways: &mut [u32],
    hints: &mut [u16],
    number: &mut [u16],
    w: Counts,
) -> Result<Lifted, Code>
    requires { Tables s.now (made_in sheet.old) places.old ways.old hints.old (rows_in_of sheet.old) (params_in sheet.old) w × (at ≤ 65535) × (end ≤ 65535) × (length name.now ≤ 255) × (length uses.now ≤ 65536) × (b ≤ 65536) × Sized binders.now b }
    ensures { Enters s.now at end name.now (names_in_of s.now uses.now) (bound_from s.now binders.now 0 b) (made_in sheet.old) places.old (rows_in_of sheet.old) (params_in sheet.old) number.old w (made_in sheet.new) places.new ways.new hints.new (rows_in_of sheet.new) (params_in sheet.new) number.new result × (order_in sheet.new ≡ order_in sheet.old) }
{
    let sizes = build_param_defns(s, uses, binders, b, sheet, w.params).ok_or(Code::NoBinder)?;
    let call = name.len() + sizes.names + 5;
    let head = name.len() + 3 + sizes.names + sizes.types;
    let bytes = w.bytes + 6 + head + call;
    if 16384 < bytes || 512 <= w.defns {
        return Err(Code::ResultLong);
    }
    let counts = add_row(
        s,
        name,
        at,
        end,
        uses.len(),
        sheet,
        places,
        ways,
        hints,
        number,
        w,
        bytes,
    );
    Ok(Lifted { call, counts })
}
