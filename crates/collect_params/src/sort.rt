// Uses in the byte order of their names: a merge sort by halves. It is written out since the project has no heap, which the library's stable
// sort takes, and since the order of uses of one name counts: `ordered` says of each which one it is.
ghost use Rattle.std.specs.Prelude.{◌≡◌, ◌+◌, eqb, length};
ghost use Rattle.definition.specs.Names.{before};
ghost use Rattle.buffer.specs.writes.Buf.{put};
ghost use Rattle.collect_params.specs.uses.Uses.{name_in};
ghost use Rattle.collect_params.specs.sort.Sort.{left_first, merged, ordered, spared};

use crate::uses::name_of_use;

// Whether one name comes before another in byte order. By hand, and not the library's `<`, which takes twice the time: a sort compares names more
// often than it does anything else.
fn name_before(a: &[u8], b: &[u8]) -> bool
    ensures { result ≡ before a.now b.now }
{
    for i in 0..a.len().min(b.len()) {
        if a[i] != b[i] {
            return a[i] < b[i];
        }
    }
    a.len() < b.len()
}

// Whether the name of x comes before that of y.
fn use_before(s: &[u8], x: u32, y: u32) -> bool
    ensures { result ≡ before (name_in s.now x) (name_in s.now y) }
{
    name_before(name_of_use(s, x), name_of_use(s, y))
}

// Whether the next use is the left list's: it has one, and the right list's first is not before it.
fn takes_left(s: &[u8], left: &[u32], right: &[u32]) -> bool
    ensures { result ≡ left_first s.now left.now right.now }
{
    if left.is_empty() {
        return false;
    }
    right.is_empty() || !use_before(s, right[0], left[0])
}

// Two lists of uses, both in order, as one in dst.
fn merge(s: &[u8], left: &[u32], right: &[u32], dst: &mut [u32])
    requires { length dst.old ≡ length left.now + length right.now }
    ensures { dst.new ≡ merged s.now (length dst.old) left.now right.now }
{
    let mut l = left;
    let mut r = right;
    for slot in dst.iter_mut() {
        if takes_left(s, l, r) {
            *slot = l[0];
            l = &l[1..];
        } else {
            *slot = r[0];
            r = &r[1..];
        }
    }
}

// The uses in the byte order of their names, halved so often at most. Halves are merged in the other table.
pub(crate) fn sort(s: &[u8], uses: &mut [u32], halvings: usize, spare: &mut [u32])
    requires { length spare.old ≡ length uses.old }
    ensures { (uses.new ≡ ordered halvings s.now uses.old) × (spare.new ≡ put spare.old 0 (spared (eqb halvings 0) uses.old (ordered halvings s.now uses.old))) }
{
    if halvings == 0 || uses.len() < 2 {
        return;
    }
    let mid = uses.len() / 2;
    sort(s, &mut uses[..mid], halvings - 1, &mut spare[..mid]);
    sort(s, &mut uses[mid..], halvings - 1, &mut spare[mid..]);
    let (left, right) = uses.split_at(mid);
    merge(s, left, right, spare);
    uses.copy_from_slice(&spare[..]);
}
