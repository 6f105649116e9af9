// The step of the pass over a body that opens a child.
ghost use Rattle.std.specs.Prelude.{◌≡◌, ◌≤◌, length};
ghost use Rattle.walker.specs.ends.Ends.{Right};
ghost use Rattle.lift_combinator.specs.frames.Frames.{Standing};
ghost use Rattle.lift_tables.specs.tables.Parts.{order_in, rows_in_of, params_in, made_in};
ghost use Rattle.lift_tables.specs.enter_lift.Bound.{Sized};
ghost use Rattle.lift_tables.specs.enter_lift.Sheet.{Tables};
ghost use Rattle.lift_combinator.specs.naming.Lifts.{Scratch};
ghost use Rattle.expand_combinator.specs.open_child.Steps.{Comes};

use crate::anonymous::contains_anonymous_format;
use lift_combinator::frames::{Frame, combinator_past, open_node};
use lift_combinator::naming::lift_anonymous_combinator;
use lift_tables::enter_lift::Counts;
use walker::ends::end_of;
use what_comes_back::Code;

// A child's frame, and the counts when it is opened.
#[derive(Clone, Copy)]
pub(crate) struct Child {
    pub frame: Frame,
    pub counts: Counts,
}

// The child at a place, whose base path holds in its first `len` bytes: it is lifted where it is anonymous, else walked.
// Each table is a parameter of its own for the reason at `expand_combinator`.
pub(crate) fn open_child(
    s: &[u8],
    ends: &[u16],
    at: usize,
    path: &mut [u8],
    len: usize,
    binders: &[u16],
    b: usize,
    bound: &mut [u32],
    uses: &mut [u32],
    spare: &mut [u32],
    sheet: &mut [u8],
    places: &mut [u16],
    ways: &mut [u32],
    hints: &mut [u16],
    number: &mut [u16],
    w: Counts,
) -> Result<Child, Code>
    requires { Tables s.now (made_in sheet.old) places.old ways.old hints.old (rows_in_of sheet.old) (params_in sheet.old) w × Standing s.now at × Scratch s.now bound.old uses.old spare.old × (length path.old ≡ 255) × (b ≤ 65536) × Sized binders.now b × Right s.now ends.now }
    ensures { Comes s.now at path.old len binders.now b (made_in sheet.old) places.old ways.old hints.old (rows_in_of sheet.old) (params_in sheet.old) number.old w path.new (made_in sheet.new) places.new ways.new hints.new (rows_in_of sheet.new) (params_in sheet.new) number.new result × (order_in sheet.new ≡ order_in sheet.old) }
{
    let end = end_of(s, ends, at);
    let last = combinator_past(s, ends, end);
    let anonymous = contains_anonymous_format(s, at, 64);
    if anonymous {
        let own = w.lifts + 1;
        let lift = lift_anonymous_combinator(
            s, at, last, path, len, binders, b, bound, uses, spare, sheet, places, ways, hints,
            number, w,
        )?;
        let frame = open_node(s, at, end, last, lift.len, b, own, lift.call);
        return Ok(Child {
            frame,
            counts: lift.counts,
        });
    }
    let frame = open_node(s, at, end, last, len, b, 0, 0);
    Ok(Child { frame, counts: w })
}
