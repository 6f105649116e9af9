// The contents of a book, tested whole. Document 01: "Contents first: u16 count n, 0 to 512; then n entries".
ghost use Rattle.std.specs.Prelude.{◌+◌, ◌*◌, ◌≤◌, length};
ghost use Rattle.definition.specs.Contents.{count as count_of};
ghost use Rattle.read_book.specs.cursor.Ends.{Walks, Takes};
ghost use Rattle.read_book.specs.contents.Table.{row_of, Tabled};

use crate::cursor::{Cursor, Fault};
use crate::entry::entry;
use what_comes_back::Code::NotABook;

// How many entries there are.
fn count(s: &[u8]) -> Result<(usize, Cursor), Fault>
    ensures { Takes s.now 0 result count_of }
{
    let top = Cursor { at: 0 };
    let (n, c) = top.u16(s)?;
    if 512 < n {
        return Err(Fault {
            at: 0,
            code: NotABook,
        });
    }
    Ok((n, c))
}

// The entries whole: each body starts where the one before ends, and the last ends with the book.
fn row(s: &[u8], n: usize, more: u8) -> Result<Cursor, Fault>
    requires { (n ≤ 512) × (2 ≤ length s.now) }
    ensures { Walks s.now 2 result (row_of (6 + more) s.now n (2 + (6 + more) * n)) }
{
    let width = 6 + usize::from(more);
    let mut here = Cursor { at: 2 };
    let mut want = 2 + width * n;
    for _ in 0..n {
        let e = entry(s, here, want, more)?;
        here = e.next;
        want = e.end;
    }
    if want < s.len() {
        return Err(Fault {
            at: want,
            code: NotABook,
        });
    }
    Ok(here)
}

// The contents whole: how many entries. The first body starts behind them.
pub(crate) fn contents(s: &[u8], more: u8) -> Result<usize, Fault>
    ensures { Tabled s.now (6 + more) result }
{
    let (n, _) = count(s)?;
    row(s, n, more)?;
    Ok(n)
}
