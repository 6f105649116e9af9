// Names and numbers as the listing prints them. A buffer and a place go along apart, as in `buffer::writes`: each function here lends them on, so
// over a `Writer` it would be no shorter, and its contract would say besides that the borrow stays the same.
ghost use Rattle.std.specs.Prelude.{◌≡◌, ◌&&◌, not, ◌<◌, leb, eqb};
ghost use Rattle.definition.specs.Listing.{hex, shown_byte, shown, count};
ghost use Rattle.buffer.specs.writes.Buf.{Wrote};
ghost use Rattle.listing_lines.specs.shown.Dash.{is_dash_of};

use buffer::writes::{put_byte, put_bytes};
use generated_name::segment::put_decimal;

// By two ranges and no table, whose proof would need sixteen cases.
#[tactic(auto, unfolding(definition::specs::Listing::hex))]
fn hex_digit(d: u8) -> u8
    requires { d < 16 }
    ensures { result ≡ hex d }
{
    match d {
        0..=9 => b'0' + d,
        _ => b'A' - 10 + d,
    }
}

// Whether a byte prints as itself.
fn is_plain(b: u8) -> bool
    ensures { result ≡ leb 33 b && leb b 126 && not (eqb b 37) }
{
    matches!(b, 33..=126) && b != b'%'
}

// "Bytes outside 33..126 and '%' print as % and two upper-case hex digits"
#[tactic(auto, unfolding(definition::specs::Listing::shown_byte))]
fn put_shown_byte(b: u8, out: &mut [u8], at: usize) -> usize
    ensures { Wrote out.old at (shown_byte b) out.new result }
{
    if is_plain(b) {
        return put_byte(b, out, at);
    }
    put_bytes(&[b'%', hex_digit(b / 16), hex_digit(b % 16)], out, at)
}

#[tactic(auto, using(crate::proofs::shown::Shown::dash_same))]
fn is_dash(name: &[u8]) -> bool
    ensures { result ≡ is_dash_of name.now }
{
    name == b"-".as_slice()
}

// "the empty name prints `-`, the name "-" prints `%2D`"
pub(crate) fn put_shown(name: &[u8], out: &mut [u8], at: usize) -> usize
    ensures { Wrote out.old at (shown name.now) out.new result }
{
    if name.is_empty() {
        return put_bytes(b"-", out, at);
    }
    if is_dash(name) {
        return put_bytes(b"%2D", out, at);
    }
    let mut o = at;
    for b in name {
        o = put_shown_byte(*b, out, o);
    }
    o
}

// A space and a number.
pub(crate) fn put_count(n: usize, out: &mut [u8], at: usize) -> usize
    ensures { Wrote out.old at (count n) out.new result }
{
    let a = put_byte(b' ', out, at);
    put_decimal(n, out, a)
}
