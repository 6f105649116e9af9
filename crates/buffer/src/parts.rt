// Parts of a slice, as far as it reaches.
ghost use Rattle.std.specs.Prelude.{◌≡◌, take};
ghost use Rattle.buffer.specs.writes.Buf.{part};

// The first n items.
pub fn first<T>(s: &[T], n: usize) -> &[T]
    ensures { result.now ≡ take n s.now }
{
    &s[..n.min(s.len())]
}

// The items from place a up to place e.
pub fn part<T>(s: &[T], a: usize, e: usize) -> &[T]
    ensures { result.now ≡ part a e s.now }
{
    let end = e.min(s.len());
    &s[a.min(end)..end]
}
