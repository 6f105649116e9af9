// The table of ends of a book: one walk over each format that the contents list. By position and total on any bytes.
ghost use Rattle.std.specs.Prelude.{◌≡◌};
ghost use Rattle.walker.specs.measure_book.Measure.{params_at, entry_at, measured_book};

use crate::measure::{measure_combinator, measure_inner};
use layout::items::{byte, name_past, number, past};
use layout::kinds::FORMAT;

// A count, and as many parameters. An inner has fewer levels than the book has bytes. `params_past` has another state and stays beside it.
fn params(s: &[u8], at: usize, ends: &mut [u16]) -> usize
    ensures { (result ≡ (params_at s.now at ends.old).0) × (ends.new ≡ (params_at s.now at ends.old).1) }
{
    let k = number(s, at);
    let mut here = past(s, at, 2);
    for _ in 0..k {
        here = measure_inner(s, name_past(s, here), s.len(), ends);
    }
    here
}

// An entry of the contents: where it is a format's, its parameters and its body.
#[tactic(auto, unfolding(crate::specs::measure_book::Measure::entry_at, crate::specs::measure_book::Measure::format_at))]
fn entry(s: &[u8], at: usize, ends: &mut [u16])
    ensures { ends.new ≡ entry_at s.now at ends.old }
{
    if byte(s, at) == FORMAT {
        let body = usize::from(number(s, past(s, at, 2)));
        let e = params(s, name_past(s, body), ends);
        measure_combinator(s, e, s.len(), ends);
    }
}

// All formats that the contents list. No `each_definition`: it adds up sizes, where this takes each body's place from its entry, and on
// bytes that are no book the two differ.
pub fn measure_book(s: &[u8], ends: &mut [u16])
    ensures { ends.new ≡ measured_book s.now ends.old }
{
    let n = number(s, 0);
    let mut here = past(s, 0, 2);
    for _ in 0..n {
        entry(s, here, ends);
        here = past(s, here, 6);
    }
}
