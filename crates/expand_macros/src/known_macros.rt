// The macros of a book in rows, the last definition first.
ghost use Rattle.expand_macros.specs.known_macros.Table.{FindsMacro, Tabled};

use layout::kinds::MACRO;
use layout::lookup::{name_at, same_name};
use name_table::forks::{row_at, slot_of};
use name_table::kinds::take_kinds;

// A book and the rows of its macros: the place of each, the ways from their names to the rows, and how many rows there are; the tables are of
// fixed length, and filled on. Not `Names`: `FindsMacro` holds of any rows, and `Names` asks for `Table`.
#[derive(Clone, Copy)]
pub struct Macros<'a> {
    pub book: &'a [u8],
    pub places: &'a [u16],
    pub ways: &'a [u32],
    pub rows: usize,
}

impl Macros<'_> {
    // Where the definition of a macro stands, if there is one: in the first row that has this name, the macro's last definition. The name's way
    // leads to one row alone, and is compared with the name there.
    pub fn find(self, name: &[u8]) -> Option<usize>
        ensures { FindsMacro name.now self.entry result }
    {
        let x = slot_of(name, self.ways, self.rows);
        let row = row_at(self.ways, x, self.rows)?;
        let at = usize::from(*self.places.get(row)?);
        if same_name(name, name_at(self.book, at)) {
            return Some(at);
        }
        None
    }
}

// Fills the rows, and gives their number.
#[tactic(auto, using(crate::proofs::known_macros::Rows::tabled))]
pub fn table(macros: &[u8], places: &mut [u16], ways: &mut [u32]) -> usize
    ensures { Tabled macros.now places.old ways.old places.new ways.new result }
{
    take_kinds(macros, MACRO, MACRO, places, ways)
}
