// Prints the listings of books of examples/ (copies of them stand in data/), one after the other, each below its name; of the last one that of
// each mode.
#![tactic(auto)]

use listing_lines::lines::{put_lines, text_buffer};
use read_full::read_full;
use std::io::Write;
use std::{fs, io};

// The lines that are those of `listing` too stay in both: a function for these five would have to say what a reader and a writer do of which
// neither program knows more.
fn list(rt: &HostRuntime, nested: bool, name: &str) -> io::Result<()> {
    let mut file = match fs::open(rt, name) {
        Ok(file) => file,
        Err(e) => {
            eprintln!(rt; "{name}: {e}")?;
            return Ok(());
        }
    };
    println!(rt; "{name}")?;
    let mut book = [0u8; 16385];
    let mut text = text_buffer();
    let n = read_full(&mut file, &mut book)?;
    let end = put_lines(nested, &book[..n], &mut text);
    io::writer(rt).write_all(&text[..end])
}

fn main(rt: HostRuntime) -> io::Result<()> {
    for name in [
        "p05.book",
        "p06.book",
        "p07-chain.book",
        "p09-both.book",
        "p10.book",
        "asset-map.book",
        "disk-label.book",
        "index-record.book",
        "key-message.book",
        "packing-list.book",
        "nested-packing-list.book",
    ] {
        list(&rt, false, name)?;
    }
    list(&rt, true, "nested-packing-list.book")
}
