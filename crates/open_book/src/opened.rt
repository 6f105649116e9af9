// The steps that all entry points share: codes 1 to 6, and the expanded book.
ghost use Rattle.std.specs.Prelude.{length};
ghost use Rattle.open_book.specs.begin.Begins.{Sound};
ghost use Rattle.open_book.specs.opened.Opens.{Opens};

use crate::begin::begin;
use expand_macros::pass::expand_macros;
use what_comes_back::Refusal;

// The length of the expanded book, which fills the output's first bytes, or code 6. The output has 16,384 bytes, or fewer, and then code 6 says
// too that it is too short; the work area's first 32,768 are the two areas of an expansion.
pub fn expand_book(book: &[u8], work: &mut [u8], out: &mut [u8]) -> Result<usize, Refusal>
    requires { Sound book.now (length work.old) }
    ensures { Opens book.now (length work.old) (length out.old) out.new result }
{
    Ok(expand_macros(book, book, &mut work[..32768], out)?)
}

// Codes 1 to 6, each with the place of the item at fault where it has one.
pub fn open_book(book: &[u8], work: &mut [u8], out: &mut [u8]) -> Result<usize, Refusal>
    ensures { Opens book.now (length work.old) (length out.old) out.new result }
{
    begin(book, work.len())?;
    expand_book(book, work, out)
}
