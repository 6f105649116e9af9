// The definitions that a book's contents list, by position over validated bytes: one after the other, and what stands before a format's body.
ghost use Rattle.std.specs.Prelude.{◌≡◌};
ghost use Rattle.std.specs.Iterator.{at_most};
ghost use Rattle.walker.specs.definitions.Listed.{all_of, next_of, NextEntry};
ghost use Rattle.walker.specs.definitions.Params.{ParamPast, ParamsPast};

use crate::skip::skip_over;
use layout::items::{byte, name_past, number, past};

// Definitions that are left of a book's: how many, the entry of the first and where its body begins. An entry has six bytes: the book's layout,
// and no table of ours.
#[derive(Clone, Copy)]
pub struct Definitions {
    pub left: usize,
    pub entry: usize,
    pub at: usize,
}

// All of a book's.
#[tactic(auto, unfolding(crate::specs::definitions::Listed::all_of))]
pub fn all_definitions(s: &[u8]) -> Definitions
    ensures { result ≡ all_of s.now }
{
    let left = usize::from(number(s, 0));
    Definitions {
        left,
        entry: past(s, 0, 2),
        at: past(s, 2, 6 * left),
    }
}

// All but the first of these: its entry has the length of its body.
#[tactic(auto, unfolding(crate::specs::definitions::Listed::next_of))]
pub fn next_definition(s: &[u8], d: Definitions) -> Definitions
    ensures { result ≡ next_of s.now d }
{
    let size = usize::from(number(s, past(s, d.entry, 4)));
    Definitions {
        left: d.left.saturating_sub(1),
        entry: past(s, d.entry, 6),
        at: past(s, d.at, size),
    }
}

// What the contents tell of a definition: its kind, where its body begins and how many bytes that has.
#[derive(Clone, Copy)]
pub struct Entry {
    pub kind: u8,
    pub at: usize,
    pub size: u16,
}

// A book's definitions one after the other, by a `for`: those that are still ahead.
#[derive(Drop)]
pub struct Entries<'a> {
    pub book: &'a [u8],
    pub ahead: Definitions,
}

impl Iterator for Entries<'_> {
    type Item = Entry;

    ghost next_gives = { NextEntry };

    ghost remaining = { λ e. at_most e.ahead.left };

    #[tactic(auto, unfolding(crate::specs::definitions::Listed::next_of))]
    fn next(&mut self) -> Option<Entry> {
        if self.ahead.left == 0 {
            return None;
        }
        let Definitions { entry, at, .. } = self.ahead;
        self.ahead = next_definition(self.book, self.ahead);
        Some(Entry {
            kind: byte(self.book, entry),
            at,
            size: number(self.book, past(self.book, entry, 4)),
        })
    }
}

// All definitions that a book's contents list.
pub fn each_definition(book: &[u8]) -> Entries<'_>
    ensures book { result.book.now ≡ book.now }
    ensures ahead { result.ahead ≡ all_of book.now }
{
    Entries {
        book,
        ahead: all_definitions(book),
    }
}

// The place behind a parameter: a name and a type.
fn param_past(book: &[u8], at: usize, marks: &mut [u16]) -> usize
    ensures { ParamPast book.now at result }
{
    skip_over(book, name_past(book, at), marks).at
}

// The place behind a count and as many parameters.
pub fn params_past(book: &[u8], at: usize, marks: &mut [u16]) -> usize
    ensures { ParamsPast book.now at result }
{
    let k = number(book, at);
    let mut here = past(book, at, 2);
    for _ in 0..k {
        here = param_past(book, here, marks);
    }
    here
}
