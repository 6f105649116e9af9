// Replays the recorded answers of the Rust, data/ (its page there says how they were made and laid out), and counts for each
// code the answers that are the recorded ones and those that are not.
#![tactic(auto)]

ghost use Rattle.std.specs.Prelude.{◌≡◌, ◌≤◌, length, IfOk};

use buffer::parts::first;
use elaborate::elaborate;
use expand_macros::pass::expand_macros;
use premise::test::premise;
use read_book::book::read;
use read_book::cursor::Fault;
use read_full::read_full;
use std::fs::{File, Files};
use std::io;
use what_comes_back::Refusal;

// How many answers with a code were right and wrong.
#[derive(Clone, Copy)]
struct Count {
    right: u64,
    wrong: u64,
}

// The same by code.
#[derive(Clone, Copy)]
struct Counts {
    of: [Count; 16],
}

// Of reading, of macro expansion, of the premise test and of `elaborate`.
#[derive(Clone, Copy)]
struct Tally {
    reading: Counts,
    expansion: Counts,
    premise: Counts,
    answer: Counts,
}

// Recorded bytes: as they are, or those of the book or of the result.
#[derive(Clone, Copy)]
enum Bytes<'a> {
    These(&'a [u8]),
    Book,
    Result,
}

// A record: its book, the answer of `elaborate` with the place of a fault and the result, the answer of the premise test and the expanded book.
// Codes are numbers, as the data has them: one that no `Code` has must count as different.
#[derive(Clone, Copy)]
struct Case<'a> {
    book: &'a [u8],
    code: u8,
    definitions: u16,
    lifted: u16,
    place: u16,
    result: &'a [u8],
    premise: u8,
    holds: u8,
    expanded: &'a [u8],
}

// What is left of the records. Past their end every byte is 0.
#[derive(Clone, Copy)]
struct Records<'a> {
    left: &'a [u8],
}

impl<'a> Records<'a> {
    // So many bytes, as far as there are any.
    fn bytes(&mut self, n: usize) -> &'a [u8] {
        let (taken, left) = self.left.split_at(n.min(self.left.len()));
        self.left = left;
        taken
    }

    fn byte(&mut self) -> u8 {
        self.bytes(1).first().copied().unwrap_or(0)
    }

    fn number(&mut self) -> u16 {
        let low = self.byte();
        let high = self.byte();
        u16::from_le_bytes([low, high])
    }

    // Where they are (the data's own numbers), u32 length (no book has more than two bytes' worth), and the bytes if they follow.
    fn recorded(&mut self) -> Bytes<'a> {
        let within = self.byte();
        let n = self.number();
        self.bytes(2);
        match within {
            0 => Bytes::These(self.bytes(usize::from(n))),
            1 => Bytes::Book,
            _ => Bytes::Result,
        }
    }

    fn case(&mut self) -> Case<'a> {
        let n = self.number();
        let book = self.bytes(usize::from(n));
        let code = self.byte();
        let definitions = self.number();
        let lifted = self.number();
        let place = self.number();
        let result = match self.recorded() {
            Bytes::These(s) => s,
            _ => book,
        };
        let premise = self.byte();
        let holds = self.byte();
        let expanded = match self.recorded() {
            Bytes::These(s) => s,
            Bytes::Book => book,
            Bytes::Result => result,
        };
        Case {
            book,
            code,
            definitions,
            lifted,
            place,
            result,
            premise,
            holds,
            expanded,
        }
    }
}

// Whether all of these bytes are this one. 64 at a time, which `==` compares at once: this is most of what the program does.
fn all_are(s: &[u8], b: u8) -> bool {
    let (rows, rest) = s.as_chunks::<64>();
    rows.iter().all(|row| *row == [b; 64]) && rest.iter().all(|x| *x == b)
}

impl Case<'_> {
    // Whether reading gives the recorded code and place; a book that is refused later reads without fault.
    fn reads(&self) -> bool {
        if self.code == 2 {
            return 16384 < self.book.len();
        }
        match read(self.book) {
            Ok(()) => self.code == 0 || 6 <= self.code,
            Err(Fault { code, at }) => u8::from(code) == self.code && at == usize::from(self.place),
        }
    }

    // Whether the premise test gives the recorded answer and place, and leaves a work area of zeros.
    fn tests(&self) -> bool {
        let mut work = [170u8; 65536];
        let alike = match premise(self.book, &mut work) {
            Ok(holds) => self.premise == 0 && u8::from(holds) == self.holds,
            Err(Refusal { code, at }) => u8::from(code) == self.premise && at == self.place,
        };
        alike && all_are(&work, 0)
    }

    // Whether macro expansion of the book, which reads without fault, gives the recorded code and bytes.
    fn expands(&self) -> bool {
        let mut out = [170u8; 16384];
        let mut areas = [85u8; 32768];
        match expand_macros(self.book, self.book, &mut areas, &mut out) {
            Ok(len) => self.premise == 0 && first(&out, len) == self.expanded,
            Err(code) => u8::from(code) == self.premise,
        }
    }

    // Whether the output begins with the recorded result, of this length, and is as before behind it.
    fn begins(&self, out: &[u8], n: usize) -> bool {
        n <= out.len() && &out[..n] == self.result && all_are(&out[n..], 170)
    }

    // Whether `elaborate` gives the recorded code, place, counts and bytes, writes nothing else, and leaves a work area of zeros.
    fn answers(&self) -> bool {
        let mut out = [170u8; 16400];
        let mut work = [170u8; 65536];
        let alike = match elaborate(self.book, &mut out, &mut work) {
            Err(Refusal { code, at }) => {
                u8::from(code) == self.code && at == self.place && all_are(&out, 170)
            }
            Ok(e) => {
                self.code == 0
                    && e.definitions == self.definitions
                    && e.lifted == self.lifted
                    && self.begins(&out, usize::from(e.length))
            }
        };
        alike && all_are(&work, 0)
    }
}

impl Counts {
    fn none() -> Counts {
        Counts {
            of: [Count { right: 0, wrong: 0 }; 16],
        }
    }

    fn count(&mut self, code: u8, good: bool) {
        if let Some(c) = self.of.get_mut(usize::from(code)) {
            if good {
                c.right = c.right.wrapping_add(1);
            } else {
                c.wrong = c.wrong.wrapping_add(1);
            }
        }
    }

    fn print<R: Print>(&self, rt: &R, what: &str, code: u8) -> io::Result<()> {
        match self.of.get(usize::from(code)) {
            Some(c) => println!(rt;
                "{what}, code {code}: {} as recorded, {} different",
                c.right, c.wrong
            ),
            None => Ok(()),
        }
    }

    // A line for code 0 and each code from 2 up to the last: 1 speaks of the work area, and no record has it.
    fn print_all<R: Print>(&self, rt: &R, what: &str, last: u8) -> io::Result<()> {
        self.print(rt, what, 0)?;
        for code in 2..=last {
            self.print(rt, what, code)?;
        }
        Ok(())
    }
}

impl Tally {
    // One record: read, tested, elaborated, and expanded where it reads without fault: where the premise test's code is 0 or 6.
    fn judge(&mut self, c: &Case) {
        self.reading.count(c.code, c.reads());
        self.premise.count(c.premise, c.tests());
        self.answer.count(c.code, c.answers());
        if c.premise == 0 || c.premise == 6 {
            self.expansion.count(c.premise, c.expands());
        }
    }

    // All records of one file.
    fn replay(&mut self, s: &[u8]) {
        let mut records = Records { left: s };
        for _ in 0..records.number() {
            self.judge(&records.case());
        }
    }

    // A file that cannot be read is told of, and counts for nothing.
    fn file<R: Files + Eprint>(&mut self, rt: &R, path: &str) -> io::Result<()> {
        let mut s = buffer();
        match contents(rt, path, &mut s) {
            Ok(n) => {
                self.replay(&s[..n]);
                Ok(())
            }
            Err(e) => eprintln!(rt; "{path}: {e}"),
        }
    }
}

// The `ensures` gives only the length: so no proof ever looks at the list.
fn buffer() -> [u8; 400000]
    ensures { 400000 ≡ length result }
{
    [0; 400000]
}

// The first bytes of a file, in the buffer: how many.
fn contents<R: Files>(rt: &R, path: &str, s: &mut [u8]) -> io::Result<usize>
    ensures { IfOk result (λ n. n ≤ length s.new) }
{
    let mut from = File::open(rt, path)?;
    read_full(&mut from, s)
}

fn main(rt: HostRuntime) -> io::Result<()> {
    let none = Counts::none();
    let mut t = Tally {
        reading: none,
        expansion: none,
        premise: none,
        answer: none,
    };
    for path in ["cases-0.bin", "cases-1.bin", "cases-2.bin", "cases-3.bin"] {
        t.file(&rt, path)?;
    }
    t.reading.print_all(&rt, "reading", 10)?;
    t.expansion.print(&rt, "expansion", 0)?;
    t.expansion.print(&rt, "expansion", 6)?;
    t.premise.print_all(&rt, "premise test", 6)?;
    t.answer.print_all(&rt, "elaborate", 10)
}
