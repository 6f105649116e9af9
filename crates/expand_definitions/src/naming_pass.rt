// The naming pass over the expanded book.
ghost use Rattle.std.specs.Prelude.{◌≤◌, length};
ghost use Rattle.walker.specs.ends.Ends.{Right};
ghost use Rattle.lift_tables.specs.tables.Parts.{order_in, rows_in_of, params_in, made_in};
ghost use Rattle.lift_combinator.specs.naming.Lifts.{Scratch};
ghost use Rattle.expand_definitions.specs.naming_pass.Expands.{Starts, Expands};

use crate::in_order::expand_in_order;
use crate::taken::Taken;
use expand_combinator::body::Named;
use layout::kinds::{CONSTANT, FORMAT};
use lift_tables::enter_lift::Counts;
use name_table::kinds::take_kinds;
use what_comes_back::Code;

// The naming pass: the tables then hold the lifts in walk order, the number of each at its place, and their order; or document 01's code of a refusal.
// Each table is a parameter of its own for the reason at `expand_combinator`.
pub fn expand_definitions(
    s: &[u8],
    ends: &[u16],
    binders: &mut [u16],
    bound: &mut [u32],
    uses: &mut [u32],
    spare: &mut [u32],
    sheet: &mut [u8],
    number: &mut [u16],
) -> Result<Named, Code>
    requires { Starts s.now (made_in sheet.old) (rows_in_of sheet.old) (params_in sheet.old) number.old (order_in sheet.old) × Scratch s.now bound.old uses.old spare.old × (length s.now ≤ length binders.old) × Right s.now ends.now }
    ensures { Expands s.now (made_in sheet.new) (rows_in_of sheet.new) (params_in sheet.new) number.new (order_in sheet.new) result }
{
    let mut path = [0u8; 255];
    let mut taken = Taken {
        places: [0; 512],
        ways: [0; 1280],
        hints: [0; 512],
    };
    let n = take_kinds(s, FORMAT, CONSTANT, &mut taken.places, &mut taken.ways);
    let w = Counts {
        taken: n,
        end: 0,
        lifts: 0,
        params: 0,
        bytes: s.len(),
        defns: usize::from(layout::items::number(s, 0)),
    };
    expand_in_order(
        s, ends, &mut path, binders, bound, uses, spare, sheet, &mut taken, number, w,
    )
}
