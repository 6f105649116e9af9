// Prints the listing of the book on standard input. With the word --nested macros that call macros are expanded too (document 02 b).
#![tactic(auto)]

ghost use Rattle.std.specs.Prelude.{◌≤◌, length};

use listing_lines::lines::{put_lines, text_buffer};
use read_full::read_full;
use std::env::{Env, FillError};
use std::io;
use std::io::Write;
use words::{Mode, mode_of};

// One byte more than the longest book has: so a longer one is refused with no more of it read.
fn list(rt: &HostRuntime, nested: bool) -> io::Result<()> {
    let mut book = [0u8; 16385];
    let mut text = text_buffer();
    let n = read_full(&mut rt.reader(), &mut book)?;
    let end = put_lines(nested, &book[..n], &mut text);
    io::writer(rt).write_all(&text[..end])
}

// How many words the program is started with, its own name the first of them; three stand for more.
fn word_count(rt: &HostRuntime) -> usize {
    let mut word = [0u8; 1];
    if let Err(FillError::NotPresent) = rt.arg(1, &mut word) {
        return 1;
    }
    if let Err(FillError::NotPresent) = rt.arg(2, &mut word) {
        return 2;
    }
    3
}

// The first word after the program's own name into buf, or nothing where there is none or it is longer: no such word is `--nested`, so 0 does
// for both.
fn first_word(rt: &HostRuntime, buf: &mut [u8]) -> usize
    ensures { result ≤ length buf.new }
{
    rt.arg(1, buf).unwrap_or(0)
}

fn main(rt: HostRuntime) -> io::Result<()> {
    let mut word = [0u8; 4096];
    let n = first_word(&rt, &mut word);
    let count = word_count(&rt);
    match mode_of(count, &word[..n]) {
        Some(Mode::Plain) => list(&rt, false),
        Some(Mode::Nested) => list(&rt, true),
        None => io::writer(&rt).write_all(b"the words are: none, or --nested\n"),
    }
}
