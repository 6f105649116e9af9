// Two areas in one slice: its first 16,384 bytes, and what follows them. It is one slice since places count from its start in both.
ghost use Rattle.std.specs.Prelude.{◌≡◌, ◌+◌, ◌≤◌, min, length};
ghost use Rattle.buffer.specs.writes.Buf.{put, part, Wrote};
ghost use Rattle.buffer.specs.areas.First.{first};

use crate::parts::{first, part};
use crate::writes::put_bytes;

// The first area.
pub fn first_area(areas: &[u8]) -> &[u8]
    ensures { result.now ≡ first areas.now }
{
    first(areas, 16384)
}

// The bytes of the first area from place a up to place e go to the second, or nowhere if `at` is past the end.
pub fn put_across(areas: &mut [u8], a: usize, e: usize, at: usize) -> usize
    requires { min 16384 (length areas.old + 1) ≤ at }
    ensures { Wrote areas.old at (part a e (first areas.old)) areas.new result }
{
    if areas.len() < at {
        return areas.len() + 1;
    }
    let (before, after) = areas.split_at_mut(at);
    at + put_bytes(part(first_area(before), a, e), after, 0)
}

// The bytes of the second area up to place e go to the front of the first.
pub fn put_back(areas: &mut [u8], e: usize)
    ensures { areas.new ≡ put areas.old 0 (part 16384 e areas.old) }
{
    let end = e.min(areas.len());
    if 16384 < end {
        areas.copy_within(16384..end, 0);
    }
}
