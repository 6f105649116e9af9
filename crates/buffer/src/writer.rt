// The book under construction: its buffer and its next free byte kept together, and an entry of its contents written with them. Each
// function over a `Writer` calls a function of `writes` on the slice and the number. The loops that write a book hold one: each turn calls a
// function on the slice and the number (`expand_macros::pass::book::expand_all`, `write_result::result::add_all`).
ghost use Rattle.std.specs.Prelude.{◌≡◌, [], ◌∷◌, ◌-◌};
ghost use Rattle.definition.specs.Write.{w_u16};
ghost use Rattle.buffer.specs.writes.Buf.{Wrote};
ghost use Rattle.buffer.specs.writer.Entry.{entry_bytes};
ghost use Rattle.buffer.specs.writer.Written.{written};

use crate::writes::{put_item, put_u16};

pub struct Writer<'a> {
    pub buf: &'a mut [u8],
    pub at: usize,
}

impl<'a> Writer<'a> {
    // A writer over a buffer, its next byte at a place.
    pub fn new(buf: &'a mut [u8], at: usize) -> Writer<'a>
        ensures same_reference { result.buf.ghost_name ≡ buf.entry.ghost_name }
        ensures value { result ≡ record { buf = buf.entry; at = at } }
    {
        Writer { buf, at }
    }

    // One byte.
    fn put_byte(&mut self, x: u8)
        ensures same_reference { self.new.buf.ghost_name ≡ self.old.buf.ghost_name }
        ensures value { self.new ≡ written self.old (x ∷ []) }
    {
        self.at = put_item(x, &mut *self.buf, self.at);
    }

    // A number in two bytes, the lower first.
    fn put_u16(&mut self, n: u16)
        ensures same_reference { self.new.buf.ghost_name ≡ self.old.buf.ghost_name }
        ensures value { self.new ≡ written self.old (w_u16 n []) }
    {
        self.at = put_u16(n, &mut *self.buf, self.at);
    }
}

// What a writer leaves in the buffer is what its buffer holds when it is let go.
// Written out, for its clause is a promise: a derived one has none.
impl Drop for Writer<'_> {
    fn drop(self)
        ensures { self.exit.0.now ≡ self.entry.buf.now }
    {
        let Writer { buf, at } = self;
    }
}

// An entry: kind, a zero byte, place and size.
fn entry_at(kind: u8, from: u16, size: u16, out: &mut [u8], at: usize) -> usize
    ensures { Wrote out.old at (kind ∷ 0 ∷ w_u16 from (w_u16 size [])) out.new result }
{
    let mut w = Writer::new(out, at);
    w.put_byte(kind);
    w.put_byte(0);
    w.put_u16(from);
    w.put_u16(size);
    w.at
}

// The entry of a body that stands from one place up to another.
pub fn put_entry(kind: u8, from: usize, to: usize, out: &mut [u8], at: usize) -> usize
    ensures { Wrote out.old at (entry_bytes kind from (to - from)) out.new result }
{
    let n = to.saturating_sub(from);
    entry_at(kind, (from % 65536) as u16, (n % 65536) as u16, out, at)
}
