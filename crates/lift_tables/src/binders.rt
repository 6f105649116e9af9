// Binders as a row of records, and the first of a name: document 01 asks that their list is lent so, and that a thin function finds the first.
// They stand in a table of numbers, four for each, which is lent from function to function (what may not change: `bound_from`, `Sized` and
// `with_param` speak of that table, and past its end of zeros); a search takes eight of them at a time into records, and lends these as a row.
ghost use Rattle.std.specs.Prelude.{◌≡◌, ◌≤◌};
ghost use Rattle.lift_tables.specs.binders.Row.{binder_at_of, binders_from, found_in};

use buffer::table::item;
use layout::lookup::{name_at, same_name};

// A binder: the place of its name's length byte, the place of its type, 1 where that is a parameter's own type, and the type's size after lifting.
// Each is a number as its table has it, and goes on to the sheet as it stands.
#[derive(Clone, Copy)]
pub(crate) struct Binder {
    pub name: u16,
    pub at: u16,
    pub own: u16,
    pub size: u16,
}

const NONE: Binder = Binder {
    name: 0,
    at: 0,
    own: 0,
    size: 0,
};

// The record of binder number j.
#[tactic(auto, unfolding(crate::specs::binders::Row::binder_at_of))]
fn binder_at(binders: &[u16], j: usize) -> Binder
    requires { j ≤ 131072 }
    ensures { result ≡ binder_at_of binders.now j }
{
    Binder {
        name: item(binders, 4 * j, 0),
        at: item(binders, 4 * j + 1, 0),
        own: item(binders, 4 * j + 2, 0),
        size: item(binders, 4 * j + 3, 0),
    }
}

// Eight records from number j on, as a row. `array::from_fn` was tried: its clause doesn't tie each call to the first closure, and the proof did
// not close.
fn row_from(binders: &[u16], j: usize) -> [Binder; 8]
    requires { j ≤ 65536 }
    ensures { result ≡ binders_from binders.now j 8 }
{
    let mut row = [NONE; 8];
    for k in 0..8 {
        row[k] = binder_at(binders, j + k);
    }
    row
}

// The first of a row that has this name.
fn first_named(s: &[u8], name: &[u8], row: &[Binder]) -> Option<Binder>
    ensures { result ≡ found_in s.now name.now row.now }
{
    for &binder in row {
        if same_name(name_at(s, usize::from(binder.name)), name) {
            return Some(binder);
        }
    }
    None
}

// The first binder of a name among the first b: "A parameter's type is that of the first binder of that name". Eight at a time are lent as a row.
pub(crate) fn find_binder(s: &[u8], name: &[u8], binders: &[u16], b: usize) -> Option<Binder>
    requires { b ≤ 65536 }
    ensures { result ≡ found_in s.now name.now (binders_from binders.now 0 b) }
{
    for k in 0..b / 8 + 1 {
        let row = row_from(binders, 8 * k);
        let n = (b - 8 * k).min(8);
        if let Some(binder) = first_named(s, name, &row[..n]) {
            return Some(binder);
        }
    }
    None
}
