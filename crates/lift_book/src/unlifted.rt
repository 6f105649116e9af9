// A book out of which nothing is lifted.
ghost use Rattle.std.specs.Prelude.{true};
ghost use Rattle.lift_book.specs.flat.Told.{Told};
ghost use Rattle.what_comes_back.specs.Elaborates.{Expanded, Lifts};
ghost use Rattle.lift_book.specs.unlifted.Copied.{Copied};

use buffer::writes::put_bytes;
use layout::items::number;
use what_comes_back::{Code, Elaborated, Refusal};

// The book into the output's first bytes, the rest as before; code 11, and all as before, where it doesn't fit.
fn copy_book(s: &[u8], out: &mut [u8]) -> Result<(), Code>
    ensures { Copied s.now out.old out.new result }
{
    if out.len() < s.len() {
        return Err(Code::OutputShort);
    }
    put_bytes(s, out, 0);
    Ok(())
}

// Out of a flat book nothing is lifted: it is its own result. Code 11 alone is left. Its length fits into 16 bits: no result has over
// 16,384 bytes.
pub(crate) fn lift_nothing(s: &[u8], out: &mut [u8]) -> Result<Elaborated, Refusal>
    requires { Expanded s.now × Told s.now true }
    ensures { Lifts s.now out.old out.new result }
{
    copy_book(s, out)?;
    Ok(Elaborated {
        length: s.len() as u16,
        definitions: number(s, 0),
        lifted: 0,
    })
}
