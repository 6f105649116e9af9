// Codes 7 to 11, in tables that are as long as the book asks. A flat book needs none. The sheet has 40,552 bytes: room for the lifts, parameters and
// generated names that code 10 lets there be.
ghost use Rattle.std.specs.Prelude.{◌≡◌, ◌+◌, ◌≤◌, length};
ghost use Rattle.what_comes_back.specs.Elaborates.{Expanded, Lifts};

use crate::flat::is_flat;
use crate::lift_with::lift_with;
use crate::unlifted::lift_nothing;
use walker::measure_book::measure_book;
use what_comes_back::{Elaborated, Refusal};

// The tables of a book of at most N bytes: for every byte an end, a number and a use; for every four bytes four numbers of a binder and of a label,
// with 64 more for the labels' hashes. B is N + 64: no const argument is computed.
fn lift_in<const N: usize, const B: usize>(
    s: &[u8],
    sheet: &mut [u8],
    out: &mut [u8],
) -> Result<Elaborated, Refusal>
    requires { Expanded s.now × (length s.now ≤ N) × (N ≤ 16384) × (N + 64 ≡ B) × (40552 ≤ length sheet.old) }
    ensures { Lifts s.now out.old out.new result }
{
    let mut ends = [0u16; N];
    let mut number = [0u16; N];
    let mut binders = [0u16; N];
    let mut bound = [0u32; B];
    let mut uses = [0u32; N];
    let mut spare = [0u32; N];
    measure_book(s, &mut ends);
    lift_with(
        s,
        &ends,
        &mut number,
        &mut binders,
        &mut bound,
        &mut uses,
        &mut spare,
        sheet,
        out,
    )
}

// A book of more than 512 bytes. Two functions call it, so that its frame, with room for the longest tables, is none of a short book's.
fn lift_longer(s: &[u8], sheet: &mut [u8], out: &mut [u8]) -> Result<Elaborated, Refusal>
    requires { Expanded s.now × (40552 ≤ length sheet.old) }
    ensures { Lifts s.now out.old out.new result }
{
    if s.len() <= 2048 {
        return lift_in::<2048, 2112>(s, sheet, out);
    }
    if s.len() <= 4096 {
        return lift_in::<4096, 4160>(s, sheet, out);
    }
    lift_in::<16384, 16448>(s, sheet, out)
}

// Codes 7 to 11 of a book whose macros were expanded, with a sheet for the lifts. No step for 128 bytes: such a book is seldom so short.
// The sheet's length is a clause: any slice that is long enough will do, where a type asks more (an array one length, a struct to be made first).
pub fn lift_expanded(s: &[u8], sheet: &mut [u8], out: &mut [u8]) -> Result<Elaborated, Refusal>
    requires { Expanded s.now × (40552 ≤ length sheet.old) }
    ensures { Lifts s.now out.old out.new result }
{
    if is_flat(s) {
        return lift_nothing(s, out);
    }
    if s.len() <= 512 {
        return lift_in::<512, 576>(s, sheet, out);
    }
    lift_longer(s, sheet, out)
}

// Codes 7 to 11 of a book without macros, which may be very short.
pub fn lift_book(s: &[u8], sheet: &mut [u8], out: &mut [u8]) -> Result<Elaborated, Refusal>
    requires { Expanded s.now × (40552 ≤ length sheet.old) }
    ensures { Lifts s.now out.old out.new result }
{
    if is_flat(s) {
        return lift_nothing(s, out);
    }
    if s.len() <= 128 {
        return lift_in::<128, 192>(s, sheet, out);
    }
    if s.len() <= 512 {
        return lift_in::<512, 576>(s, sheet, out);
    }
    lift_longer(s, sheet, out)
}
