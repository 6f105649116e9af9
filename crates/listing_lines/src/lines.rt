// The listing of a book, written into a buffer.
ghost use Rattle.std.specs.Prelude.{◌≡◌, length};
ghost use Rattle.listing_lines.specs.lines.Lines.{TellsIn};

use crate::answers::put_answer;
use elaborate::elaborate;
use elaborate_nested::elaborate_nested;

// A text that holds every listing. The `ensures` gives only the length: so no proof of a caller looks at the list.
pub fn text_buffer() -> [u8; 65536]
    ensures { 65536 ≡ length result }
{
    [0; 65536]
}

// The listing of a book, in either mode, cut where the text ends. A text of 65,536 bytes holds every listing. The mode is a bool: what may not
// change is `TellsIn nested`.
pub fn put_lines(nested: bool, book: &[u8], text: &mut [u8]) -> usize
    ensures { TellsIn nested book.now text.old text.new result }
{
    let mut out = [0u8; 16384];
    let mut work = [0u8; 65536];
    let answer = if nested {
        elaborate_nested(book, &mut out, &mut work)
    } else {
        elaborate(book, &mut out, &mut work)
    };
    put_answer(answer, &out, text)
}
