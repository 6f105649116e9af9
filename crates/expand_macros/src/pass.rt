// Macro expansion on validated bytes: document 01's "Macro rules".
mod book;

ghost use Rattle.std.specs.Prelude.{◌≤◌, length};
ghost use Rattle.expand_macros.specs.pass.Pass.{Passed, PassedBy};

use crate::kept::{count_kept, has_no_macros};
use crate::known_macros::{Macros, table};
use buffer::writes::{put_bytes, put_u16};
use what_comes_back::Code;

// A pass with the macros of the other book in a table, the calls of each body marked, and those of an instance in the row.
fn expand_marked(
    macros: &[u8],
    book: &[u8],
    areas: &mut [u8],
    marks: &mut [u16],
    row: &mut [u16],
    out: &mut [u8],
) -> Result<usize, Code>
    ensures { PassedBy (length marks.old) macros.now book.now areas.old out.old out.new result }
{
    let n = count_kept(book).min(512);
    let bodies = 2 + 6 * n;
    if out.len() < bodies {
        return Err(Code::MacroGrowth);
    }
    let mut places = [0u16; 512];
    let mut ways = [0u32; 1280];
    let rows = table(macros, &mut places, &mut ways);
    let known = Macros {
        book: macros,
        places: &places,
        ways: &ways,
        rows,
    };
    put_u16(n as u16, out, 0);
    let end = book::expand_all(known, book, areas, marks, row, out, bodies);
    if out.len() < end {
        return Err(Code::MacroGrowth);
    }
    Ok(end)
}

// With so many marks, which a book of twice as many bytes needs at most, and a row for the calls of an instance.
fn expand_within<const MARKS: usize, const ROW: usize>(
    macros: &[u8],
    book: &[u8],
    areas: &mut [u8],
    out: &mut [u8],
) -> Result<usize, Code>
    requires marks { MARKS ≤ 8192 }
    requires row { ROW ≤ 8192 }
    ensures { PassedBy MARKS macros.now book.now areas.old out.old out.new result }
{
    let mut marks = [0u16; MARKS];
    let mut row = [0u16; ROW];
    expand_marked(macros, book, areas, &mut marks, &mut row, out)
}

// One pass: the book with the calls of the macros that the other book defines expanded, and without macros of its own. It fills the first bytes
// of out, which has 16,384 at most, and gives their number; where it has more bytes than out, that is growth too, code 6. The areas, two in one,
// have 32,768. Where neither book has a macro the book stays as it is. A book of at most 512 bytes gets marks for so many, and a row for the
// instances that it seldom goes beyond.
pub fn expand_macros(
    macros: &[u8],
    book: &[u8],
    areas: &mut [u8],
    out: &mut [u8],
) -> Result<usize, Code>
    ensures { Passed macros.now book.now areas.old out.old out.new result }
{
    if has_no_macros(macros) && has_no_macros(book) {
        if out.len() < book.len() {
            return Err(Code::MacroGrowth);
        }
        put_bytes(book, out, 0);
        return Ok(book.len());
    }
    if book.len() <= 512 {
        return expand_within::<256, 1024>(macros, book, areas, out);
    }
    expand_within::<8192, 8192>(macros, book, areas, out)
}
