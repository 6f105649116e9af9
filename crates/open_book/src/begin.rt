// The first steps that all entry points share: codes 1 to 5, and whether the book has macros.
ghost use Rattle.open_book.specs.begin.Begins.{Begins};

use expand_macros::kept::has_no_macros;
use read_book::book::read;
use read_book::cursor::Fault;
use what_comes_back::{Code, Refusal};

// A book that passes codes 1 to 5: without macros, or with some.
#[derive(Clone, Copy, Debug, PartialEq, Eq)]
pub enum Begun {
    Plain,
    Macros,
}

// Codes 1 to 5, with a work area of so many bytes.
pub fn begin(book: &[u8], work: usize) -> Result<Begun, Refusal>
    ensures { Begins book.now work result }
{
    if work < 65536 {
        return Err(Refusal::from(Code::WorkShort));
    }
    if 16384 < book.len() {
        return Err(Refusal::from(Code::BookLong));
    }
    // In a book this short every place fits, which a From could not ask for.
    if let Err(Fault { code, at }) = read(book) {
        return Err(Refusal {
            code,
            at: at as u16,
        });
    }
    if has_no_macros(book) {
        return Ok(Begun::Plain);
    }
    Ok(Begun::Macros)
}
