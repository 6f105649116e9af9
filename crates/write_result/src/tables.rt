// The expanded book and the tables that the naming pass leaves, and what is read of them in numbers: total on any bytes and any numbers.
ghost use Rattle.std.specs.Prelude.{◌≡◌, ◌≤◌};
ghost use Rattle.lift_tables.specs.tables.Parts.{pairs};
ghost use Rattle.write_result.specs.tables.Numbers.{row_numbers, param_numbers};

use lift_tables::tables::pair;

// `rows` and `params` have two bytes for each number, `number` a number for each place of the book: one more than the lift's that
// begins there, or 0. As `Option<u16>` it would be two bytes longer for each byte of the book, which are cleared for every book. A method that
// reads it as one would have `put_spliced` ask again what `next_lift` found.
#[derive(Clone, Copy)]
pub struct Tables<'a> {
    pub book: &'a [u8],
    pub names: &'a [u8],
    pub rows: &'a [u8],
    pub params: &'a [u8],
    pub number: &'a [u16],
}

// A lift: where the combinator moved begins and ends, where its name stands among the names, its first parameter and their count.
#[derive(Clone, Copy)]
pub(crate) struct Row {
    pub(crate) at: u16,
    pub(crate) end: u16,
    pub(crate) name: u16,
    pub(crate) first: u16,
    pub(crate) count: u16,
}

// A parameter: where its name's bytes begin in the book and how many they are, where its type stands, and whether that is a parameter's own.
#[derive(Clone, Copy)]
pub(crate) struct Param {
    pub(crate) name: u16,
    pub(crate) length: u16,
    pub(crate) at: u16,
    pub(crate) own: bool,
}

impl Tables<'_> {
    // Lift i. Its five numbers stand beside one another, as a parameter's four do: the tables are lent bytes (fixed memory), and no rows of structs.
    pub(crate) fn row(self, i: u16) -> Row
        ensures { result ≡ row_numbers (pairs self.entry.rows.now) i }
    {
        let base = 5 * usize::from(i);
        Row {
            at: pair(self.rows, base),
            end: pair(self.rows, base + 1),
            name: pair(self.rows, base + 2),
            first: pair(self.rows, base + 3),
            count: pair(self.rows, base + 4),
        }
    }

    // Parameter j.
    pub(crate) fn param(self, j: usize) -> Param
        requires { j ≤ 131070 }
        ensures { result ≡ param_numbers (pairs self.entry.params.now) j }
    {
        let base = 4 * j;
        Param {
            name: pair(self.params, base),
            length: pair(self.params, base + 1),
            at: pair(self.params, base + 2),
            own: pair(self.params, base + 3) == 1,
        }
    }
}
