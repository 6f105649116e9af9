// What is left of a book without its macros: how many definitions, and whether these are all.
ghost use Rattle.expand_macros.specs.kept.Kept.{KeptOf, Macroless};

use layout::items::{byte, number, past};
use layout::kinds::MACRO;

// How many definitions are no macros.
pub(crate) fn count_kept(book: &[u8]) -> usize
    ensures { KeptOf book.now result }
{
    let all = number(book, 0);
    let mut entry = past(book, 0, 2);
    let mut n: usize = 0;
    for _ in 0..all {
        let kind = byte(book, entry);
        entry = past(book, entry, 6);
        if kind != MACRO {
            n += 1;
        }
    }
    n
}

// Whether no definition of a book is a macro.
#[tactic(auto, using(crate::proofs::kept::Counting::told))]
pub fn has_no_macros(book: &[u8]) -> bool
    ensures { Macroless book.now result }
{
    let all = usize::from(number(book, 0));
    count_kept(book) == all
}
