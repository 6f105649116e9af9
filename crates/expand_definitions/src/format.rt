// The naming pass over one definition.
ghost use Rattle.std.specs.Prelude.{◌≡◌};
ghost use Rattle.walker.specs.ends.Ends.{Right};
ghost use Rattle.lift_tables.specs.tables.Parts.{order_in, rows_in_of, params_in, made_in};
ghost use Rattle.expand_combinator.specs.open_child.Good.{Good};
ghost use Rattle.expand_definitions.specs.format.Formats.{Space, Format, Defined};

use crate::own_params::own_params;
use crate::taken::Taken;
use buffer::writes::put_bytes;
use expand_combinator::body::{Named, expand_combinator};
use layout::items::name_past;
use layout::kinds::FORMAT;
use layout::lookup::name_at;
use what_comes_back::Code;

// The definition at a place: only a format has a body to walk, with its own parameters in force.
// Each table but those of names is a parameter of its own for the reason at `expand_combinator`.
#[tactic(auto, using(crate::proofs::format::Formats::defined_none))]
pub(crate) fn expand_definition(
    s: &[u8],
    ends: &[u16],
    kind: u8,
    at: usize,
    path: &mut [u8],
    binders: &mut [u16],
    bound: &mut [u32],
    uses: &mut [u32],
    spare: &mut [u32],
    sheet: &mut [u8],
    taken: &mut Taken,
    number: &mut [u16],
    named: Named,
) -> Result<Named, Code>
    requires { Good s.now (made_in sheet.old) taken.old.places taken.old.ways taken.old.hints (rows_in_of sheet.old) (params_in sheet.old) number.old (order_in sheet.old) named.counts named.finished × Space s.now path.old binders.old bound.old uses.old spare.old × (kind ≡ 1 → Format s.now at) × Right s.now ends.now }
    ensures { Defined s.now kind at (made_in sheet.old) taken.old.places (rows_in_of sheet.old) (params_in sheet.old) (order_in sheet.old) named.counts named.finished (made_in sheet.new) taken.new.places taken.new.ways taken.new.hints (rows_in_of sheet.new) (params_in sheet.new) number.new (order_in sheet.new) result }
{
    if kind != FORMAT {
        return Ok(named);
    }
    let len = put_bytes(name_at(s, at), path, 0);
    let list = name_past(s, at);
    let b = usize::from(layout::items::number(s, list));
    let body = own_params(s, list, binders);
    expand_combinator(
        s,
        ends,
        body,
        path,
        len,
        binders,
        b,
        bound,
        uses,
        spare,
        sheet,
        &mut taken.places,
        &mut taken.ways,
        &mut taken.hints,
        number,
        named,
    )
}
