// The names taken so far: each has a row, and a way leads to the first row of each name.
// The tables that a name goes to are lent one by one: as fields of a struct they would be `&mut`, and each function would promise besides that
// it hands the same references back. Places and hints are two tables, since the names of a premise test and the macros have no hints.
ghost use Rattle.std.specs.Prelude.{◌≡◌, ◌+◌, ◌≤◌, ◌<◌, length, set};
ghost use Rattle.name_table.specs.taken.Taken.{both, Entered, Took, Listed};

use crate::forks::{enter, row_at, slot_of};
use buffer::writes::put_name;
use layout::lookup::{Place, name_at, name_of};

// The way of a name to row n, with the names of the rows before. Where none of them follows, `enter` is given what stands in row n and does not
// read it, as nothing follows there; it is no Option, since `Entered` names that row on any numbers, those too that are no right table.
fn enter_row<'a>(
    name: &[u8],
    book: &'a [u8],
    made: &'a [u8],
    places: &[u16],
    ways: &mut [u32],
    n: usize,
)
    requires { (length name.now ≤ 255) × (n < length places.now) × (n < 65535) }
    ensures { Entered name.now (both book.now made.now) places.now n ways.old ways.new }
{
    let x = slot_of(name, &ways[..], n);
    let row = row_at(&ways[..], x, n).unwrap_or(n);
    let place = Place::from(places[row]);
    enter(name, name_of(book, made, place), ways, x, n);
}

// A row: a name's place, and a hint that says nothing yet. That n is inside the tables is asked by each function that writes row n: the tables
// are `&mut`, so no struct that is handed on by value can say it.
fn set_row(places: &mut [u16], hints: &mut [u16], n: usize, place: u16)
    requires { (n < length places.old) × (n < length hints.old) }
    ensures { (places.new ≡ set places.old n place) × (hints.new ≡ set hints.old n 0) }
{
    places[n] = place;
    hints[n] = 0;
}

// Takes a generated name: it goes to place `end` of the generated names, and gets row n. Gives the place after it.
pub fn take_name(
    name: &[u8],
    book: &[u8],
    made: &mut [u8],
    end: usize,
    places: &mut [u16],
    ways: &mut [u32],
    hints: &mut [u16],
    n: usize,
) -> usize
    requires { (length name.now ≤ 255) × (end + 1 + length name.now ≤ length made.old) × (end < 32768) × (n < length places.old) × (n < 65535) × (n < length hints.old) }
    ensures { Took name.now book.now made.old end places.old ways.old hints.old n made.new places.new ways.new hints.new result }
{
    enter_row(name, book, &made[..], &places[..], ways, n);
    let next = put_name(name, made, end);
    set_row(places, hints, n, (32768 + end) as u16);
    next
}

// A name that stands in the book gets row n, where all others stand in the book too.
pub(crate) fn list_name(book: &[u8], at: usize, places: &mut [u16], ways: &mut [u32], n: usize)
    requires { (at < 32768) × (n < length places.old) × (n < 65535) }
    ensures { Listed book.now at places.old ways.old n places.new ways.new }
{
    enter_row(name_at(book, at), book, &book[..0], &places[..], ways, n);
    places[n] = at as u16;
}
