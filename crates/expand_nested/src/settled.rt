// Whether a book needs another pass, on validated bytes: document 02 b, "until no known macro call stands where the pass reaches".
ghost use Rattle.expand_nested.specs.settled.Settles.{FormatSettles, DefinitionSettles, BodiesSettle, Settles};

use crate::unknown::all_unknown;
use buffer::parts::first;
use expand_macros::known_macros::{Macros, table};
use layout::items::name_past;
use layout::kinds::FORMAT;
use walker::definitions::{each_definition, params_past};
use walker::skip::walk_over;

// The format at a place: its body, behind its name and its parameters.
fn format_settled(macros: Macros<'_>, book: &[u8], at: usize, marks: &mut [u16]) -> bool
    ensures { FormatSettles macros.entry book.now at marks.old result }
{
    let params = name_past(book, at);
    let body = params_past(book, params, marks);
    let w = walk_over(book, body, 64, marks);
    all_unknown(macros, book, first(&marks[..], w.n))
}

// The definition at a place: the pass reaches only into formats.
#[tactic(auto, using(crate::proofs::settled::Settling::definition_settles, crate::proofs::settled::Settling::other_settles))]
fn definition_settled(
    macros: Macros<'_>,
    book: &[u8],
    kind: u8,
    at: usize,
    marks: &mut [u16],
) -> bool
    ensures { DefinitionSettles macros.entry book.now kind at marks.old result }
{
    if kind == FORMAT {
        return format_settled(macros, book, at, marks);
    }
    true
}

// Every format's body, with the macros in a table. (`premise::holds` and `lift_book::flat` go over the bodies in these lines too: with the test as
// a closure the contract of one loop would speak of every test and of what its closure ensures, and each caller would name both.)
fn bodies_settled(macros: Macros<'_>, book: &[u8], marks: &mut [u16]) -> bool
    ensures { BodiesSettle macros.entry book.now marks.old result }
{
    for d in each_definition(book) {
        if !definition_settled(macros, book, d.kind, d.at, marks) {
            return false;
        }
    }
    true
}

// Whether no call of a macro that the other book defines stands where the pass reaches.
pub(crate) fn settled(macros: &[u8], book: &[u8]) -> bool
    ensures { Settles macros.now book.now result }
{
    let mut places = [0u16; 512];
    let mut ways = [0u32; 1280];
    let mut marks = [0u16; 8192];
    let rows = table(macros, &mut places, &mut ways);
    let known = Macros {
        book: macros,
        places: &places,
        ways: &ways,
        rows,
    };
    bodies_settled(known, book, &mut marks)
}
