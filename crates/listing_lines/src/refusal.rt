// The line of a refusal, written into a buffer.
ghost use Rattle.std.specs.Prelude.{◌≡◌};
ghost use Rattle.definition.specs.Listing.{has_place_of};
ghost use Rattle.buffer.specs.writes.Buf.{Wrote};
ghost use Rattle.what_comes_back.specs.Codes.{number_of};
ghost use Rattle.listing_lines.specs.refusal.Refusal.{refusal};

use crate::shown::put_count;
use buffer::writes::{put_byte, put_bytes};
use what_comes_back::{Code, Refusal};

// "`refused N at P` for the three"
#[tactic(auto, unfolding(definition::specs::Listing::has_place_of))]
fn has_place(code: Code) -> bool
    ensures { result ≡ has_place_of (number_of code) }
{
    matches!(code, Code::NotABook | Code::BadName | Code::TooDeep)
}

// The line of a refusal: its code, and the place of the item at fault.
pub(crate) fn put_refusal(why: Refusal, out: &mut [u8]) -> usize
    ensures { Wrote out.old 0 (refusal (number_of why.code) why.at) out.new result }
{
    let a = put_bytes(b"refused", out, 0);
    let b = put_count(usize::from(u8::from(why.code)), out, a);
    if has_place(why.code) {
        let c = put_bytes(b" at", out, b);
        let d = put_count(usize::from(why.at), out, c);
        return put_byte(b'\n', out, d);
    }
    put_byte(b'\n', out, b)
}
