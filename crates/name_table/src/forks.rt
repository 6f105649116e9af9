// The way of a name to its row, in one lent table of numbers, since the memory is fixed. Its first 256 are heads, one for each length of a name;
// behind them each row has two. A number is 0 where nothing follows. Up to 65,535 it is one more than a row, the only one that can have a name
// that comes there. From 65,536 on it is a fork: 4,096 times the row whose two numbers follow, and the bit of the name that says which of the
// two: one of its hash, or one of its own. No way asks for a bit twice: so a name meets no more forks than it has bits, its hash's 32 among them,
// and is compared with one other at the end.
// It is one table, and no heads beside an array of structs, since a number that leads on stands at a head or in a row alike. A number is no enum,
// since the theorems of `Forks` speak of the numbers, which a table of fixed size packs into 32 bits.
ghost use Rattle.std.specs.Prelude.{◌≡◌, ◌+◌, ◌≤◌, ◌<◌, length, get_or, MatchOption};
ghost use Rattle.name_table.specs.forks.Forks.{fork_at, slot_of, row_at, byte_apart_of, bit_from, apart_at, Apart, entered_at};

use buffer::table::{item, set_item};
use layout::hash::Hashed;

// Which number follows for a name at a fork.
#[tactic(auto, unfolding(crate::specs::forks::Forks::fork_at))]
fn fork(name: Hashed<'_>, w: u32) -> usize
    ensures { result ≡ fork_at name.entry.name.now w }
{
    let w = w as usize;
    256 + 2 * (w / 4096) + name.bit(w % 4096)
}

// Where the way of a name ends, in a table of so many rows.
#[tactic(auto, using(crate::proofs::forks::Steps::way_head, crate::proofs::forks::Steps::way_start, crate::proofs::forks::Steps::way_end, crate::proofs::forks::Steps::way_on, crate::proofs::forks::Steps::way_done))]
pub fn slot_of(name: &[u8], ways: &[u32], rows: usize) -> usize
    ensures { result ≡ slot_of ways.now name.now rows }
{
    let head = name.len() % 256;
    if item(ways, head, 0) < 65536 {
        return head;
    }
    let hashed = Hashed::of(name);
    let mut x = head;
    for _ in 0..rows {
        let v = item(ways, x, 0);
        if v < 65536 {
            return x;
        }
        x = fork(hashed, v - 65536);
    }
    x
}

// The row that follows at an end, if one of so many does.
#[tactic(auto, using(crate::proofs::forks::Steps::row_absent, crate::proofs::forks::Steps::row_is))]
pub fn row_at(ways: &[u32], x: usize, rows: usize) -> Option<usize>
    ensures { MatchOption result (row_at ways.now x rows ≡ rows) (λ row. (row < rows) × (row_at ways.now x rows ≡ row)) }
{
    let v = item(ways, x, 0) as usize;
    if v == 0 || rows < v {
        return None;
    }
    Some(v - 1)
}

// The first byte in which two names differ, or the length of the first. It is no Option, and nor are the next two: the definitions `byte_from`,
// `bit_from` and `apart_at` name the place behind, which stands for none.
#[tactic(auto, using(crate::proofs::forks::Steps::byte_start, crate::proofs::forks::Steps::byte_here, crate::proofs::forks::Steps::byte_on, crate::proofs::forks::Steps::byte_done))]
fn byte_apart(a: &[u8], b: &[u8]) -> usize
    ensures { (result ≡ byte_apart_of a.now b.now) × (result ≤ length a.now) }
{
    for (i, x) in a.iter().enumerate() {
        if *x != item(b, i, 0) {
            return i;
        }
    }
    a.len()
}

// The first of so many bits from `first` on in which two names differ, or the bit behind these.
#[tactic(auto, using(crate::proofs::forks::Steps::bits_on, crate::proofs::forks::Steps::bits_here, crate::proofs::forks::Steps::bits_done))]
fn bits_apart(a: Hashed<'_>, b: Hashed<'_>, first: usize, count: usize) -> usize
    requires { first + count ≤ 4096 }
    ensures { result ≡ bit_from a.entry.name.now b.entry.name.now count first }
{
    for d in first..first + count {
        if a.bit(d) != b.bit(d) {
            return d;
        }
    }
    first + count
}

// A bit in which two names differ, the first of their hashes or of their own, or one behind the end of the first name.
fn apart(a: &[u8], b: &[u8]) -> usize
    requires { length a.now ≤ 255 }
    ensures { (result ≡ apart_at a.now b.now) × Apart a.now b.now }
{
    let g = Hashed::of(a);
    let h = Hashed::of(b);
    let d = bits_apart(g, h, 0, 32);
    if d < 32 {
        return d;
    }
    let first = 32 + 8 * byte_apart(a, b);
    bits_apart(g, h, first, 8)
}

// The row behind the others gets a name, whose way ends at x; other is the name of the row that follows there, if there is one. A name that has
// a row already leads to that one.
#[tactic(auto, using(crate::proofs::forks::Steps::entered_none, crate::proofs::forks::Steps::entered_same, crate::proofs::forks::Steps::entered_fork))]
pub(crate) fn enter(name: &[u8], other: &[u8], ways: &mut [u32], x: usize, rows: usize)
    requires { (length name.now ≤ 255) × (rows < 65535) }
    ensures { (ways.new ≡ entered_at ways.old name.now other.now x rows) × ((get_or ways.old x 0 ≡ 0 → ⊥) → Apart name.now other.now) }
{
    let v = item(&ways[..], x, 0);
    if v == 0 {
        set_item(ways, x, (rows + 1) as u32);
        return;
    }
    let d = apart(name, other);
    if 32 + 8 * name.len() <= d {
        return;
    }
    let side = Hashed::of(name).bit(d);
    set_item(ways, 256 + 2 * rows + side, (rows + 1) as u32);
    set_item(ways, 257 + 2 * rows - side, v);
    set_item(ways, x, (65536 + 4096 * rows + d) as u32);
}
