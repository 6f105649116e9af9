// Reading at a place of the book: a byte, a number, a name, a text. Document 01, "The definition book".
ghost use Rattle.std.specs.Prelude.{◌+◌};
ghost use Rattle.definition.specs.Read.{byte as byte_of, u16 as u16_of, text as text_of, name_by};
ghost use Rattle.read_book.specs.utf8.Tested.{tested};
ghost use Rattle.read_book.specs.cursor.Ends.{Takes, Cuts};
ghost use Rattle.read_book.specs.cursor.Item.{among as among_of};

use crate::utf8::is_name;
use what_comes_back::Code;
use what_comes_back::Code::{BadName, NotABook};

// A place in the book. The book's bytes go along beside it: with them inside, reading a book takes a fifth longer.
#[derive(Clone, Copy)]
pub(crate) struct Cursor {
    pub at: usize,
}

// A refusal: the place of the item at fault, and its code. It is no Refusal: a place of any slice may need more than 16 bits.
#[derive(Clone, Copy, Debug, PartialEq, Eq)]
pub struct Fault {
    pub at: usize,
    pub code: Code,
}

impl Cursor {
    fn byte(self, s: &[u8]) -> Result<(u8, Cursor), Fault>
        ensures { Takes s.now self.at result byte_of }
    {
        let at = self.at;
        if s.len() <= at {
            return Err(Fault { at, code: NotABook });
        }
        Ok((s[at], Cursor { at: at + 1 }))
    }

    // A byte from low to high: a kind, a tag or a flag.
    pub fn among(self, s: &[u8], low: u8, high: u8) -> Result<(u8, Cursor), Fault>
        ensures { Takes s.now self.at result (among_of low high) }
    {
        let at = self.at;
        let (b, c) = self.byte(s)?;
        if b < low || high < b {
            return Err(Fault { at, code: NotABook });
        }
        Ok((b, c))
    }

    pub fn u16(self, s: &[u8]) -> Result<(usize, Cursor), Fault>
        ensures { Takes s.now self.at result u16_of }
    {
        let at = self.at;
        if s.len() <= at || s.len() <= at + 1 {
            return Err(Fault { at, code: NotABook });
        }
        let number = u16::from_le_bytes([s[at], s[at + 1]]);
        Ok((usize::from(number), Cursor { at: at + 2 }))
    }

    // A text; its bytes are those from two behind the cursor up to the next one.
    pub fn text(self, s: &[u8]) -> Result<Cursor, Fault>
        ensures { Cuts s.now self.at (self.at + 2) result text_of }
    {
        let at = self.at;
        let (n, c) = self.u16(s)?;
        let from = c.at;
        if s.len() - from < n {
            return Err(Fault { at, code: NotABook });
        }
        Ok(Cursor { at: from + n })
    }

    // A name; its bytes are those from one behind the cursor up to the next one. `dots` is a bool: the definition's `name_by` takes the test so.
    // Inlined, and the test with it: with a call for each of them a list of short names takes longer to read.
    #[inline(always)]
    pub fn name(self, s: &[u8], dots: bool) -> Result<Cursor, Fault>
        ensures { Cuts s.now self.at (self.at + 1) result (name_by (tested dots)) }
    {
        let at = self.at;
        let (b, c) = self.byte(s)?;
        let n = usize::from(b);
        let from = c.at;
        if s.len() - from < n {
            return Err(Fault { at, code: NotABook });
        }
        let to = from + n;
        if !is_name(&s[from..to], dots) {
            return Err(Fault { at, code: BadName });
        }
        Ok(Cursor { at: to })
    }
}
