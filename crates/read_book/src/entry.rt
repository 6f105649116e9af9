// An entry of the contents of a book. Document 01: "then n entries".
ghost use Rattle.std.specs.Prelude.{◌+◌, length, drop};
ghost use Rattle.definition.specs.Contents.{entry as entry_of};
ghost use Rattle.read_book.specs.entry.Found.{Found};

use crate::cursor::{Cursor, Fault};
use layout::items::number;
use layout::kinds::{FORMAT, MACRO};
use what_comes_back::Code::NotABook;

// An entry of the contents: its kind's byte, where its body ends, and the next entry.
#[derive(Clone, Copy)]
pub(crate) struct ContentsEntry {
    pub kind: u8,
    pub end: usize,
    pub next: Cursor,
}

// The entry at the cursor, whose body has to start at `want`.
pub(crate) fn entry(s: &[u8], c: Cursor, want: usize, more: u8) -> Result<ContentsEntry, Fault>
    ensures { Found s.now c.at want (6 + more) result (entry_of (6 + more) (length s.now) want (drop c.at s.now)) }
{
    let at = c.at;
    let wrong = Fault { at, code: NotABook };
    let width = 6 + usize::from(more);
    if s.len() < at || s.len() - at < width {
        return Err(wrong);
    }
    let kind = s[at];
    if kind < FORMAT || MACRO < kind {
        return Err(wrong);
    }
    if s[at + 1] != 0 || usize::from(number(s, at + 2)) != want {
        return Err(wrong);
    }
    let end = want + usize::from(number(s, at + 4));
    if s.len() < end {
        return Err(wrong);
    }
    Ok(ContentsEntry {
        kind,
        end,
        next: Cursor { at: at + width },
    })
}
