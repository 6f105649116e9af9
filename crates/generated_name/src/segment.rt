// What generated names are made of: the segment of a label, and a number.
mod letters;

ghost use Rattle.definition.specs.Names.{segment, decimal};
ghost use Rattle.buffer.specs.writes.Buf.{Wrote};

use buffer::writes::{put_bytes, put_item};

// The segment of a label.
pub(crate) fn generated_segment(label: &[u8], dst: &mut [u8], at: usize) -> usize
    ensures { Wrote dst.old at (segment label.now) dst.new result }
{
    if dst.len() < at {
        return dst.len() + 1;
    }
    if label.is_empty() {
        return put_bytes(b"anon", dst, at);
    }
    let table = letters::TABLE;
    let mut o = at;
    for b in label {
        let x = table[usize::from(*b)];
        if x != 0 {
            o = put_item(x, dst, o);
        }
    }
    o
}

// A number in decimal digits, the first first.
pub fn put_decimal(n: usize, dst: &mut [u8], at: usize) -> usize
    ensures { Wrote dst.old at (decimal n) dst.new result }
{
    if n < 10 {
        return put_item((48 + n) as u8, dst, at);
    }
    let o = put_decimal(n / 10, dst, at);
    put_item((48 + n % 10) as u8, dst, o)
}
