// The naming pass over one body: the frame of the node that is walked, and those above it that wait.
ghost use Rattle.std.specs.Prelude.{◌≤◌};
ghost use Rattle.walker.specs.ends.Ends.{Right};
ghost use Rattle.lift_tables.specs.tables.Parts.{order_in, rows_in_of, params_in, made_in};
ghost use Rattle.expand_combinator.specs.open_child.Good.{Good};
ghost use Rattle.expand_combinator.specs.body.Walks.{Ready, Walks};

use crate::open_child::open_child;
use crate::waiters::Waiters;
use lift_combinator::children::{Step, next_step};
use lift_combinator::done::{close_node, pass, resume_node};
use lift_combinator::frames::{combinator_past, open_node};
use lift_tables::enter_lift::Counts;
use walker::ends::end_of;
use what_comes_back::Code;

// What the tables hold, and how many of their lifts are finished.
#[derive(Clone, Copy)]
pub struct Named {
    pub counts: Counts,
    pub finished: usize,
}

// The body at a place: path holds its name in the first `len` bytes, and b binders are in force. What the tables hold then.
// Each table is a parameter of its own: with a struct of `&mut` slices each contract would have to promise besides that all nine are still the ones
// lent, and arrays in a struct would ask callers for fixed lengths. `len` and `b` go beside path and binders, as one of each serves all frames.
// The loop stands in for the Rust's recursion: document 01 asks for one frame for each of the 64 levels.
pub fn expand_combinator(
    s: &[u8],
    ends: &[u16],
    at: usize,
    path: &mut [u8],
    len: usize,
    binders: &mut [u16],
    b: usize,
    bound: &mut [u32],
    uses: &mut [u32],
    spare: &mut [u32],
    sheet: &mut [u8],
    places: &mut [u16],
    ways: &mut [u32],
    hints: &mut [u16],
    number: &mut [u16],
    mut named: Named,
) -> Result<Named, Code>
    requires { Good s.now (made_in sheet.old) places.old ways.old hints.old (rows_in_of sheet.old) (params_in sheet.old) number.old (order_in sheet.old) named.counts named.finished × Ready s.now at path.old binders.old b bound.old uses.old spare.old × (len ≤ 256) × Right s.now ends.now }
    ensures { Walks s.now at path.old len binders.old b (made_in sheet.old) places.old (rows_in_of sheet.old) (params_in sheet.old) (order_in sheet.old) named.counts named.finished (made_in sheet.new) places.new ways.new hints.new (rows_in_of sheet.new) (params_in sheet.new) number.new (order_in sheet.new) result }
{
    let end = end_of(s, ends, at);
    let last = combinator_past(s, ends, end);
    let mut f = open_node(s, at, end, last, len, b, 0, 0);
    let mut waiters = Waiters::none();
    loop {
        match next_step(s, f, path) {
            Step::Pass(e) => f = pass(f, e),
            Step::Child(place, l) => {
                let child = open_child(
                    s,
                    ends,
                    place,
                    path,
                    l,
                    binders,
                    f.bound,
                    bound,
                    uses,
                    spare,
                    sheet,
                    places,
                    ways,
                    hints,
                    number,
                    named.counts,
                )?;
                waiters.push(f);
                f = child.frame;
                named.counts = child.counts;
            }
            Step::Done => {
                let z = close_node(f, sheet, named.finished);
                named.finished = z.finished;
                match waiters.pop() {
                    Some(p) => f = resume_node(s, p, f, z, binders),
                    None => return Ok(named),
                }
            }
        }
    }
}
