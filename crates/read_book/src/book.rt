// The whole book: its contents, "then the bodies in the same order, with no gap" (document 01).
ghost use Rattle.std.specs.Prelude.{◌≡◌, ◌+◌, length};
ghost use Rattle.definition.specs.Contents.{book as book_of};
ghost use Rattle.read_book.specs.body.Verdict.{verdict};
ghost use Rattle.read_book.specs.contents.Table.{Holds};

use crate::body::body;
use crate::contents::contents;
use crate::cursor::Fault;
use layout::items::number;

// The bodies in order, of a book whose contents hold.
fn bodies(s: &[u8], n: usize, more: u8) -> Result<(), Fault>
    requires { Holds s.now (6 + more) n }
    ensures { result ≡ verdict (length s.now) (book_of (6 + more) s.now) }
{
    let width = 6 + usize::from(more);
    let mut here = 2;
    let mut want = 2 + width * n;
    for _ in 0..n {
        let end = want + usize::from(number(s, here + 4));
        body(s, s[here], want, end)?;
        here += width;
        want = end;
    }
    Ok(())
}

// A book whose entries have `more` bytes behind their six: none in document 01, some in the second edition (document 02 k).
fn book(s: &[u8], more: u8) -> Result<(), Fault>
    ensures { result ≡ verdict (length s.now) (book_of (6 + more) s.now) }
{
    let n = contents(s, more)?;
    bodies(s, n, more)
}

// The book of document 01: codes 3, 4 and 5, or nothing wrong.
pub fn read(s: &[u8]) -> Result<(), Fault>
    ensures { result ≡ verdict (length s.now) (book_of 6 s.now) }
{
    book(s, 0)
}
