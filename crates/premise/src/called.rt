// The test of the calls that are marked, with the names that may be called in a table, on validated bytes.
ghost use Rattle.std.specs.Prelude.{◌≡◌, []};
ghost use Rattle.walker.specs.pieces.Marked.{every_place};
ghost use Rattle.name_table.specs.taken.Taken.{both, Table};
ghost use Rattle.name_table.specs.taken.Fact.{Table-prop};
ghost use Rattle.premise.specs.called.Known.{known_at};

use layout::items::{byte, past};
use layout::lookup::name_at;
use layout::tags::INVOCATION;
use name_table::find::Names;

// A book, and the names that may be called in rows, which stand in it: their places, the ways to their rows, and how many rows there are:
// both tables are of fixed length, and filled so far.
#[derive(Clone, Copy)]
pub(crate) struct Callable<'a> {
    pub book: &'a [u8],
    pub places: &'a [u16],
    pub ways: &'a [u32],
    pub n: usize,
    ghost table: { Table (both book.now []) places.now ways.now n } by { Table-prop (both book.now []) places.now ways.now n },
}

impl Callable<'_> {
    // Whether the call at a place is one of a name in the table, or a macro's.
    fn is_known(self, call: usize) -> bool
        ensures { result ≡ known_at self.entry.book.now self.entry.places.now self.entry.n call }
    {
        let tag = byte(self.book, call);
        let a = past(self.book, call, 1);
        if tag == INVOCATION {
            let names = Names {
                book: self.book,
                made: &self.book[..0],
                places: self.places,
                ways: self.ways,
                n: self.n,
            };
            return names.find(name_at(self.book, a)).is_some();
        }
        true
    }

    // The same of every call that is marked. expand_nested's `all_unknown` is this loop with another test of a call: one function over a closure
    // would need the closure's promise for every call as a clause, which is longer than the loop.
    pub fn all_known(self, marks: &[u16]) -> bool
        ensures { result ≡ every_place (known_at self.entry.book.now self.entry.places.now self.entry.n) marks.now }
    {
        for pair in marks.chunks_exact(2) {
            if !self.is_known(usize::from(pair[0])) {
                return false;
            }
        }
        true
    }
}
