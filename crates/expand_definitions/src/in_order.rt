// The naming pass over all definitions in order.
ghost use Rattle.walker.specs.ends.Ends.{Right};
ghost use Rattle.lift_tables.specs.tables.Parts.{order_in, rows_in_of, params_in, made_in};
ghost use Rattle.what_comes_back.specs.Elaborates.{Expanded};
ghost use Rattle.expand_combinator.specs.open_child.Good.{Good};
ghost use Rattle.expand_definitions.specs.format.Formats.{Space};
ghost use Rattle.expand_definitions.specs.in_order.InOrder.{InOrder};

use crate::format::expand_definition;
use crate::taken::Taken;
use expand_combinator::body::Named;
use lift_tables::enter_lift::Counts;
use walker::definitions::each_definition;
use what_comes_back::Code;

// "Definitions in order", as the contents list them.
// Each table but those of names is a parameter of its own for the reason at `expand_combinator`.
pub(crate) fn expand_in_order(
    s: &[u8],
    ends: &[u16],
    path: &mut [u8],
    binders: &mut [u16],
    bound: &mut [u32],
    uses: &mut [u32],
    spare: &mut [u32],
    sheet: &mut [u8],
    taken: &mut Taken,
    number: &mut [u16],
    start: Counts,
) -> Result<Named, Code>
    requires { Good s.now (made_in sheet.old) taken.old.places taken.old.ways taken.old.hints (rows_in_of sheet.old) (params_in sheet.old) number.old (order_in sheet.old) start 0 × Space s.now path.old binders.old bound.old uses.old spare.old × Expanded s.now × Right s.now ends.now }
    ensures { InOrder s.now (made_in sheet.old) taken.old.places (rows_in_of sheet.old) (params_in sheet.old) (order_in sheet.old) start (made_in sheet.new) taken.new.places taken.new.ways taken.new.hints (rows_in_of sheet.new) (params_in sheet.new) number.new (order_in sheet.new) result }
{
    let mut named = Named {
        counts: start,
        finished: 0,
    };
    for d in each_definition(s) {
        named = expand_definition(
            s, ends, d.kind, d.at, path, binders, bound, uses, spare, sheet, taken, number, named,
        )?;
    }
    Ok(named)
}
