// The labels in force, in one lent table of numbers, since the memory is fixed. Its first 64 are heads, by the six highest bits of a name's hash.
// Behind them each label has four numbers: the place of its length byte, two that lead on, and where the number stands that leads to it. A number
// that leads on is one more than that of a label, and counts where that label is in force and says that it is led to from there: so labels are
// taken back by counting fewer of them. Each step looks at the next bit of the hash, and then of the name, 0 behind its end: so a name meets no
// more labels than the longest has bits, its hash's among them, and then only those that differ from it in zero bytes at the end.
// It is one table, and no heads beside an array of structs, since a number that leads on stands at a head or in a label alike.
ghost use Rattle.std.specs.Prelude.{◌≡◌, ◌+◌, ◌≤◌, ◌%◌, MatchOption};
ghost use Rattle.collect_params.specs.labels.Labels.{head_of, label_at, link_at, fork_at, end_of, is_label_of, slot_of, bind_at};

use buffer::table::{item, set_item};
use layout::hash::Hashed;
use layout::lookup::{name_at, same_name};

// The number of a name's head, from its hash.
#[tactic(auto, unfolding(crate::specs::labels::Labels::head_of))]
fn head_of(name: Hashed<'_>) -> usize
    ensures { result ≡ head_of name.entry.name.now }
{
    let h = name.hash as usize;
    h / 67108864
}

// Which number of label i leads on for a name, by a bit of it behind those of its head.
#[tactic(auto, unfolding(crate::specs::labels::Labels::fork_at))]
fn fork(name: Hashed<'_>, depth: usize, i: usize) -> usize
    requires { i ≤ 4294967295 }
    ensures { result ≡ fork_at name.entry.name.now depth i }
{
    65 + 4 * i + name.bit(depth.min(4096) + 6)
}

// The labels in force, as far as they are read: the bytes in which their names stand, the table, and how many there are: the table is longer,
// and filled on.
#[derive(Clone, Copy)]
pub(crate) struct Labels<'a> {
    pub s: &'a [u8],
    pub table: &'a [u32],
    pub b: usize,
}

impl<'a> Labels<'a> {
    // A label's name.
    #[tactic(auto, unfolding(crate::specs::labels::Labels::label_at))]
    fn name(self, i: usize) -> &'a [u8]
        ensures { result.now ≡ label_at self.entry.s.now self.entry.table.now i }
    {
        if self.table.len() <= i {
            return name_at(self.s, 0);
        }
        name_at(self.s, item(self.table, 64 + 4 * i, 0) as usize)
    }

    // Which label is led to from x, if one is.
    #[tactic(auto, using(crate::proofs::labels::Steps::link_absent, crate::proofs::labels::Steps::link_other, crate::proofs::labels::Steps::link_here))]
    fn link(self, x: usize) -> Option<usize>
        ensures { MatchOption result (link_at self.entry.table.now self.entry.b x ≡ 0) (λ i. (link_at self.entry.table.now self.entry.b x ≡ i + 1) × (i ≤ 4294967294)) }
    {
        let v = item(self.table, x, 0) as usize;
        if v == 0 || self.b < v {
            return None;
        }
        let i = v - 1;
        if item(self.table, 67 + 4 * i, 0) as usize != x {
            return None;
        }
        Some(i)
    }

    // Where a name's way ends: where nothing leads on, or to a label of that name.
    #[tactic(auto, using(crate::proofs::labels::Steps::way_start, crate::proofs::labels::Steps::way_end, crate::proofs::labels::Steps::way_same, crate::proofs::labels::Steps::way_next, crate::proofs::labels::Steps::way_done))]
    fn end_of(self, name: &[u8]) -> usize
        ensures { result ≡ end_of self.entry.s.now name.now self.entry.table.now self.entry.b }
    {
        let hashed = Hashed::of(name);
        let mut x = head_of(hashed);
        for depth in 0..self.b {
            let Some(i) = self.link(x) else {
                return x;
            };
            if same_name(name, self.name(i)) {
                return x;
            }
            x = fork(hashed, depth, i);
        }
        x
    }

    // Whether a name is one of them. A `match`, since the closure of `is_some_and` would need a promise of its own.
    #[tactic(auto, using(crate::proofs::labels::Steps::is_empty, crate::proofs::labels::Steps::is_none, crate::proofs::labels::Steps::is_met))]
    pub(crate) fn has(self, name: &[u8]) -> bool
        ensures { result ≡ is_label_of self.entry.s.now name.now self.entry.table.now self.entry.b }
    {
        if self.b == 0 {
            return false;
        }
        let x = self.end_of(name);
        match self.link(x) {
            Some(i) => same_name(name, self.name(i)),
            None => false,
        }
    }

    // Where the number is to stand that leads to a new label of that name: where its way ends, or aside if there is one of its name already.
    fn slot_of(self, name: &[u8], aside: usize) -> usize
        ensures { result ≡ slot_of self.entry.s.now name.now self.entry.table.now self.entry.b aside }
    {
        let x = self.end_of(name);
        if self.link(x).is_none() {
            return x;
        }
        aside
    }
}

// A number as the table keeps it.
fn kept(x: usize) -> u32
    ensures { result ≡ x % 4294967296 }
{
    (x % 4294967296) as u32
}

// The label whose length byte stands at a place becomes number b. Where the table has no room it is not bound and the count stays as it is: the
// table is as long as any book needs, and `bind_at` is total on any.
#[tactic(auto, using(crate::proofs::labels::Steps::bind_none, crate::proofs::labels::Steps::bind_on))]
pub(crate) fn bind_label(s: &[u8], at: usize, table: &mut [u32], b: usize) -> usize
    ensures { (result ≡ (bind_at s.now at table.old b).0) × (table.new ≡ (bind_at s.now at table.old b).1) }
{
    if table.len() <= b {
        return b;
    }
    let first = 64 + 4 * b;
    if table.len() <= first + 3 {
        return b;
    }
    let labels = Labels {
        s,
        table: &table[..],
        b,
    };
    let x = labels.slot_of(name_at(s, at), first + 3);
    set_item(table, first, kept(at));
    set_item(table, first + 1, 0);
    set_item(table, first + 2, 0);
    set_item(table, x, kept(b + 1));
    set_item(table, first + 3, kept(x));
    b + 1
}
