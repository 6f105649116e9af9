// A row of items, and one of names, behind its count. Document 01, "The definition book".
ghost use Rattle.std.specs.Prelude.{◌+◌};
ghost use Rattle.definition.specs.Read.{name_by, names_by};
ghost use Rattle.read_book.specs.utf8.Tested.{tested};
ghost use Rattle.read_book.specs.cursor.Ends.{Cuts, Walks};
ghost use Rattle.read_book.specs.name_list.Rows.{counted, Counts};

use crate::cursor::{Cursor, Fault};

// A count, and as many items, each read by `item`.
pub(crate) fn row<F: Fn(Cursor) -> Result<Cursor, Fault>>(
    s: &[u8],
    c: Cursor,
    item: F,
) -> Result<Cursor, Fault>
    requires { F.IsAlwaysCallable item }
    ensures { Counts s.now c.at (F.post item) result }
{
    let (n, mut here) = c.u16(s)?;
    for _ in 0..n {
        here = item(here)?;
    }
    Ok(here)
}

// A count, and as many names.
pub(crate) fn names(s: &[u8], c: Cursor, dots: bool) -> Result<Cursor, Fault>
    ensures { Walks s.now c.at result (counted (names_by (tested dots))) }
{
    let item = |here: Cursor| -> Result<Cursor, Fault>
        ensures { Cuts s.entry.now here.at (here.at + 1) result (name_by (tested dots)) }
    { here.name(s, dots) };
    row(s, c, item)
}
