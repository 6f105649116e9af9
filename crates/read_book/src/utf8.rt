// UTF-8 and names. Document 01, "The definition book".
ghost use Rattle.std.specs.Prelude.{◌≡◌};
ghost use Rattle.definition.specs.Utf8.{well_formed};
ghost use Rattle.definition.specs.Read.{no_dot_of};
ghost use Rattle.read_book.specs.utf8.Tested.{tested};

use crate::characters::{Awaits, next};

// Byte by byte, and not the library's test: document 02 d asks that it keeps only what the next byte may be.
fn utf8(t: &[u8]) -> bool
    ensures { result ≡ well_formed t.now }
{
    let mut state = Awaits {
        left: 0,
        low: 0x80,
        high: 0xBF,
    };
    for b in t {
        state = next(state, *b);
    }
    state.left == 0
}

// Whether no byte is a dot. Names are short, and a call of `contains` costs more than to go over a few bytes.
fn no_dot(t: &[u8]) -> bool
    ensures { result ≡ no_dot_of t.now }
{
    for b in t {
        if *b == b'.' {
            return false;
        }
    }
    true
}

// Whether bytes are a name: one that may have dots, or a plain one.
#[inline(always)]
pub(crate) fn is_name(t: &[u8], dots: bool) -> bool
    ensures { result ≡ tested dots t.now }
{
    utf8(t) && (dots || no_dot(t))
}
