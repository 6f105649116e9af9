// Macros that call macros, on validated bytes: document 02 b. The pass of document 01 is run again on its result, with the same macros.
ghost use Rattle.std.specs.Prelude.{length};
ghost use Rattle.expand_nested.specs.passes.Repeats.{PassedBack, Again};

use crate::settled::settled;
use buffer::parts::first;
use buffer::writes::put_part;
use expand_macros::pass::expand_macros;
use what_comes_back::Code;

// One pass over the book that stands in the first bytes; what it makes in next goes back there. Its length, or code 6. The length goes beside the
// buffer: a pass may make the book longer within it.
fn pass_back(
    macros: &[u8],
    book: &mut [u8],
    len: usize,
    areas: &mut [u8],
    next: &mut [u8],
) -> Result<usize, Code>
    ensures { PassedBack macros.now book.old len (length areas.old) (length next.old) book.new result }
{
    let made = expand_macros(macros, first(&book[..], len), areas, next)?;
    put_part(&next[..], 0, made, book, 0);
    Ok(made)
}

// Passes with the macros of the other book, until none of these is called where a pass reaches: at most 15, after the first. The length of the
// book after the last pass; growth past a limit is code 6, a known call left after it code 12.
pub fn expand_again(
    macros: &[u8],
    book: &mut [u8],
    len: usize,
    areas: &mut [u8],
    next: &mut [u8],
) -> Result<usize, Code>
    ensures { Again macros.now book.old len 15 (length areas.old) (length next.old) book.new result }
{
    let mut n = len;
    for _ in 0..15u8 {
        let here = first(&book[..], n);
        if settled(macros, here) {
            return Ok(n);
        }
        n = pass_back(macros, book, n, areas, next)?;
    }
    let last = first(&book[..], n);
    if settled(macros, last) {
        return Ok(n);
    }
    Err(Code::MacroLeft)
}
