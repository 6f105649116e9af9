// One item of a table, read and written: total, so that no caller shows that a place is within.
ghost use Rattle.std.specs.Prelude.{◌≡◌, get_or, set};

// The item at a place, or `none` past the end.
pub fn item<T: Copy>(s: &[T], at: usize, none: T) -> T
    ensures { result ≡ get_or s.now at none }
{
    s.get(at).copied().unwrap_or(none)
}

// An item at a place, as far as the table reaches.
pub fn set_item<T: Copy>(s: &mut [T], at: usize, x: T)
    ensures { s.new ≡ set s.old at x }
{
    if at < s.len() {
        s[at] = x;
    }
}
