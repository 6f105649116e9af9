// A name's row among those of the names taken so far.
ghost use Rattle.name_table.specs.taken.Taken.{both, Table};
ghost use Rattle.name_table.specs.taken.Fact.{Table-prop};
ghost use Rattle.name_table.specs.find.Found.{Found};

use crate::forks::{row_at, slot_of};
use layout::lookup::{Place, name_of, same_name};

// The names taken so far, as far as they are read: the book and the generated names in which they stand, each row's place there, the ways
// to the rows, and how many rows there are. Both tables are longer than that: they are of fixed length, and filled on.
#[derive(Clone, Copy)]
pub struct Names<'a> {
    pub book: &'a [u8],
    pub made: &'a [u8],
    pub places: &'a [u16],
    pub ways: &'a [u32],
    pub n: usize,
    ghost table: { Table (both book.now made.now) places.now ways.now n } by { Table-prop (both book.now made.now) places.now ways.now n },
}

impl<'a> Names<'a> {
    // The first row of a name. The name's way leads to one row alone, and is compared with the name there.
    pub fn find(self, name: &[u8]) -> Option<usize>
        ensures { Found name.now (both self.entry.book.now self.entry.made.now) self.entry.places.now self.entry.n result }
    {
        let x = slot_of(name, self.ways, self.n);
        let row = row_at(self.ways, x, self.n)?;
        let place = Place::from(self.places[row]);
        if same_name(name, name_of(self.book, self.made, place)) {
            return Some(row);
        }
        None
    }
}
