// The lines of a result, written into a buffer.
ghost use Rattle.buffer.specs.writes.Buf.{Wrote};
ghost use Rattle.listing_lines.specs.printed.Lines.{word_of, Line, AllLines, Lists};

use crate::shown::{put_count, put_shown};
use buffer::writes::{put_byte, put_bytes};
use layout::items::{name_past, number};
use layout::kinds::{BYTE_ORDER, CONSTANT, FORMAT};
use layout::lookup::name_at;
use walker::definitions::each_definition;

// `format` for a definition that was there, `lifted` for one that was not. A count and no bool: `word_of` takes it.
#[tactic(auto, using(crate::proofs::printed::Lines::word_format), unfolding(crate::specs::printed::Lines::word_of))]
fn put_word(kept: usize, out: &mut [u8], at: usize) -> usize
    ensures { Wrote out.old at (word_of kept) out.new result }
{
    match kept {
        0 => put_bytes(b"lifted", out, at),
        _ => put_bytes(b"format", out, at),
    }
}

// The line of the definition at a place; `kept` definitions that were there are left, itself one of them.
fn put_line(s: &[u8], kind: u8, at: usize, kept: usize, out: &mut [u8], o: usize) -> usize
    ensures { Line s.now kind at kept out.old o out.new result }
{
    let name = name_at(s, at);
    match kind {
        FORMAT => {
            let params = usize::from(number(s, name_past(s, at)));
            let a = put_word(kept, out, o);
            let b = put_byte(b' ', out, a);
            let c = put_shown(name, out, b);
            let d = put_count(params, out, c);
            put_byte(b'\n', out, d)
        }
        CONSTANT => {
            let a = put_bytes(b"const ", out, o);
            let b = put_shown(name, out, a);
            put_byte(b'\n', out, b)
        }
        BYTE_ORDER => put_bytes(b"order\n", out, o),
        _ => put_bytes(b"", out, o),
    }
}

// The end of the first line, and a line for each definition.
fn put_lines(s: &[u8], kept: usize, out: &mut [u8], at: usize) -> usize
    ensures { AllLines s.now kept out.old at out.new result }
{
    let mut first = kept;
    let mut o = put_byte(b'\n', out, at);
    for e in each_definition(s) {
        o = put_line(s, e.kind, e.at, first, out, o);
        first = first.saturating_sub(1);
    }
    o
}

pub(crate) fn put_result(s: &[u8], definitions: u16, lifted: u16, out: &mut [u8]) -> usize
    ensures { Lists s.now definitions lifted out.old out.new result }
{
    let a = put_bytes(b"ok", out, 0);
    let b = put_count(usize::from(definitions), out, a);
    let c = put_count(usize::from(lifted), out, b);
    put_lines(s, usize::from(definitions.saturating_sub(lifted)), out, c)
}
