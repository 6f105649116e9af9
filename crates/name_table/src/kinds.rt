// The definitions of some kinds in rows, found by their names, on validated bytes.
ghost use Rattle.name_table.specs.kinds.Rows.{Takes, OfKinds};

use crate::taken::list_name;
use layout::items::{byte, number, past};

// The definition whose entry stands at a place of the contents gets row n if its kind is one of these; the number of rows then. Where there is
// no room the number stays as it is: the tables are made for the largest book, and `Takes` is total on any. They go one by one: see `taken`.
fn take_entry(
    s: &[u8],
    entry: usize,
    low: u8,
    high: u8,
    places: &mut [u16],
    ways: &mut [u32],
    n: usize,
) -> usize
    ensures { Takes s.now entry low high places.old ways.old n places.new ways.new result }
{
    let kind = byte(s, entry);
    if kind < low || high < kind {
        return n;
    }
    let offset = past(s, entry, 2);
    let at = usize::from(number(s, offset));
    if 32768 <= at || 512 <= n || places.len() <= n || ways.len() < 258 + 2 * n {
        return n;
    }
    list_name(s, at, places, ways, n);
    n + 1
}

// A row for each definition of these kinds; the number of rows. From the last to the first, since `taken` lists the names with the last taken in
// front, which is then the order of the book.
pub fn take_kinds(s: &[u8], low: u8, high: u8, places: &mut [u16], ways: &mut [u32]) -> usize
    ensures { OfKinds s.now low high places.old ways.old places.new ways.new result }
{
    let count = usize::from(number(s, 0));
    let mut n = 0;
    for i in (0..count).rev() {
        let entry = past(s, 2, 6 * i);
        n = take_entry(s, entry, low, high, places, ways, n);
    }
    n
}
