// The first free name. A row's hint says where the numbered names of its name start to be worth a try. So a lift under a base that was
// used 499 times tries one number or two.
ghost use Rattle.std.specs.Prelude.{◌≤◌, ◌<◌, length};
ghost use Rattle.name_table.specs.taken.Taken.{both, taken, Hints};
ghost use Rattle.generated_name.specs.fresh_name.Free.{Tells, FirstFree, Fresh};

use crate::child_name::numbered_name;
use name_table::find::Names;

// The number that is free, and the length of the name.
#[derive(Clone, Copy)]
struct Free {
    number: usize,
    len: usize,
}

// Whether the name that path holds is free. One that is longer than path is: no name that is taken is longer than 255 bytes.
fn is_free(path: &[u8], len: usize, names: Names<'_>) -> bool
    requires { 255 ≤ length path.now }
    ensures { Tells path.now len (taken (both names.entry.book.now names.entry.made.now) names.entry.places.now names.entry.n) result }
{
    path.len() < len || names.find(&path[..len]).is_none()
}

// The first number from `first` on, and below the number of names, whose numbered name is free; else that number. Path's first `at` bytes
// are the base.
fn first_free(path: &mut [u8], at: usize, names: Names<'_>, first: usize) -> Free
    requires { (255 ≤ length path.old) × (at ≤ length path.old) × (first ≤ names.n) }
    ensures { FirstFree path.old at (both names.entry.book.now names.entry.made.now) names.entry.places.now names.entry.n first path.new result.number result.len }
{
    for number in first..names.n {
        let len = numbered_name(number, path, at);
        if is_free(&path[..], len, names) {
            return Free { number, len };
        }
    }
    let len = numbered_name(names.n, path, at);
    Free {
        number: names.n,
        len,
    }
}

// The name of a lift: path holds the base in its first `at` bytes, and then the name. Where the name is longer than path, the answer is a
// place past path's end; that is code 9, since path has 255 bytes. It is no Option, since `Fresh` says of that place too which name it stands for.
pub fn fresh_generated_name(
    path: &mut [u8],
    at: usize,
    names: Names<'_>,
    hints: &mut [u16],
) -> usize
    requires { Hints (both names.book.now names.made.now) names.places.now hints.old names.n × (255 ≤ length path.old) × (names.n < 65536) }
    ensures fresh { Fresh path.old at (both names.entry.book.now names.entry.made.now) names.entry.places.now names.entry.n path.new result }
    ensures hints { Hints (both names.entry.book.now names.entry.made.now) names.entry.places.now hints.new names.entry.n }
{
    if path.len() < at {
        return path.len() + 1;
    }
    let Some(row) = names.find(&path[..at]) else {
        return at;
    };
    let free = first_free(path, at, names, usize::from(hints[row]));
    hints[row] = free.number as u16;
    free.len
}
