// The book under construction, on a slice and the number of its next free byte. Every function writes as far as the slice reaches, and
// answers the place after, or one past the slice's end where not all was written. So a caller tests the last answer alone. They are functions
// on a slice and a place as document 01's forms ask: "few thin functions that call covered ones on slice and number" (`writer` has the thin ones).
ghost use Rattle.std.specs.Prelude.{◌+◌, ◌<◌, ◌^◌, [], ◌∷◌, length};
ghost use Rattle.definition.specs.Write.{w_u16};
ghost use Rattle.buffer.specs.writes.Buf.{part, Wrote, name_bytes};

use crate::parts;

// One item.
pub fn put_item<T: Copy>(x: T, dst: &mut [T], at: usize) -> usize
    requires { length dst.old + 1 < 2 ^ 64 }
    ensures { Wrote dst.old at (x ∷ []) dst.new result }
{
    if dst.len() <= at {
        return dst.len() + 1;
    }
    dst[at] = x;
    at + 1
}

// One byte. It asks nothing, where `put_item` asks that one may be added to the length.
pub fn put_byte(x: u8, dst: &mut [u8], at: usize) -> usize
    ensures { Wrote dst.old at (x ∷ []) dst.new result }
{
    put_item(x, dst, at)
}

// A number in two bytes, the lower first.
pub fn put_u16(n: u16, dst: &mut [u8], at: usize) -> usize
    ensures { Wrote dst.old at (w_u16 n []) dst.new result }
{
    put_bytes(&n.to_le_bytes(), dst, at)
}

// All bytes of src.
pub fn put_bytes(src: &[u8], dst: &mut [u8], at: usize) -> usize
    ensures { Wrote dst.old at src.now dst.new result }
{
    if dst.len() < at {
        return dst.len() + 1;
    }
    let room = dst.len() - at;
    if room < src.len() {
        dst[at..].copy_from_slice(&src[..room]);
        return dst.len() + 1;
    }
    let end = at + src.len();
    dst[at..end].copy_from_slice(src);
    end
}

// The bytes of src from place a up to place e, as far as src reaches.
pub fn put_part(src: &[u8], a: usize, e: usize, dst: &mut [u8], at: usize) -> usize
    ensures { Wrote dst.old at (part a e src.now) dst.new result }
{
    put_bytes(parts::part(src, a, e), dst, at)
}

// A name: its length in one byte, then its bytes.
pub fn put_name(name: &[u8], dst: &mut [u8], at: usize) -> usize
    ensures { Wrote dst.old at (name_bytes name.now) dst.new result }
{
    let n = name.len();
    let first = put_item((n % 256) as u8, dst, at);
    put_bytes(name, dst, first)
}
