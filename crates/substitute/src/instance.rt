// A macro's instance at a call of it: document 01's "Macro rules", 4.
ghost use Rattle.substitute.specs.instance.Instance.{Instanced};
ghost use Rattle.substitute.specs.instance.Paired.{Paired};

use crate::substitution::{Turn, substitute_next};
use layout::items::{name_past, number, past};

// How many parameters meet an argument.
pub fn pairs(macros: &[u8], def: usize, book: &[u8], call: usize) -> usize
    ensures { Paired macros.now def book.now call result }
{
    let params = number(macros, name_past(macros, def));
    let args = number(book, name_past(book, past(book, call, 1)));
    usize::from(params.min(args))
}

// One parameter after the other, for so many pairs of a parameter and an argument.
pub fn instance(
    macros: &[u8],
    book: &[u8],
    t: Turn,
    pairs: usize,
    areas: &mut [u8],
    marks: &mut [u16],
) -> Option<Turn>
    ensures { Instanced macros.now book.now areas.old marks.old t pairs areas.new marks.new result }
{
    let mut here = t;
    for _ in 0..pairs {
        here = substitute_next(macros, book, here, areas, marks)?;
    }
    Some(here)
}
