// The premise test over an expanded book, on validated bytes: document 01's "Premise test and listing".
ghost use Rattle.std.specs.Prelude.{length};
ghost use Rattle.walker.specs.bodies.Tested.{FormatTested, DefinitionTested, BodiesTested};
ghost use Rattle.name_table.specs.kinds.Rows.{row_names};
ghost use Rattle.premise.specs.holds.Holds.{passes, Holds};

use crate::called::Callable;
use buffer::parts::first;
use layout::items::name_past;
use layout::kinds::{CONSTANT, FORMAT};
use name_table::kinds::take_kinds;
use walker::definitions::{each_definition, params_past};
use walker::skip::walk_over;

// The format at a place: its body, behind its name and its parameters.
fn format_holds(t: Callable<'_>, at: usize, marks: &mut [u16]) -> bool
    ensures { FormatTested t.entry.book.now at (passes (row_names t.entry.book.now t.entry.places.now t.entry.n)) (length marks.old) result }
{
    let params = name_past(t.book, at);
    let body = params_past(t.book, params, marks);
    let w = walk_over(t.book, body, 64, marks);
    w.plain && t.all_known(first(&marks[..], w.n))
}

// The definition at a place: only of a format is anything asked.
#[tactic(auto, using(walker::proofs::bodies::Tested::definition_format, walker::proofs::bodies::Tested::definition_other))]
fn definition_holds(t: Callable<'_>, kind: u8, at: usize, marks: &mut [u16]) -> bool
    ensures { DefinitionTested t.entry.book.now kind at (passes (row_names t.entry.book.now t.entry.places.now t.entry.n)) (length marks.old) result }
{
    if kind == FORMAT {
        return format_holds(t, at, marks);
    }
    true
}

// Every format's body, with the names that may be called in a table. (Why this loop stands in `expand_nested::settled` too is said there.)
fn bodies_hold(t: Callable<'_>, marks: &mut [u16]) -> bool
    ensures { BodiesTested t.entry.book.now (passes (row_names t.entry.book.now t.entry.places.now t.entry.n)) (length marks.old) result }
{
    for d in each_definition(t.book) {
        if !definition_holds(t, d.kind, d.at, marks) {
            return false;
        }
    }
    true
}

// Whether every Invocation in a format's body names a format or a constant, and every chain there stands on Bytes or Tail.
pub(crate) fn holds(s: &[u8]) -> bool
    ensures { Holds s.now result }
{
    let mut places = [0u16; 512];
    let mut ways = [0u32; 1280];
    let mut marks = [0u16; 8192];
    let n = take_kinds(s, FORMAT, CONSTANT, &mut places, &mut ways);
    let t = Callable {
        book: s,
        places: &places,
        ways: &ways,
        n,
    };
    bodies_hold(t, &mut marks)
}
