// Characters in UTF-8, one byte after the other: what may follow. Document 01, "The definition book".
ghost use Rattle.std.specs.Prelude.{◌≡◌, List, ◌∷◌, ℕ};
ghost use Rattle.definition.specs.Utf8.{range, behind, characters};
ghost use Rattle.read_book.specs.characters.Ranges.{ranges, ranges_by};

// What a character that has begun still wants: so many bytes, the next one from low to high and the others from 80 to BF.
#[derive(Clone, Copy)]
pub(crate) struct Awaits {
    pub left: u8,
    pub low: u8,
    pub high: u8,
}

fn wants(left: u8, low: u8, high: u8) -> Awaits
    ensures { ranges result ≡ ranges_by left (range low high) }
{
    Awaits { left, low, high }
}

// What the first byte of a character wants behind it; of a byte that starts no character, what no byte meets.
fn lead(b: u8) -> Awaits
    ensures { behind b ≡ ranges result }
{
    // nearly every byte of a name: told by one test, before the others
    if b < 0x80 {
        return wants(0, 0x80, 0xBF);
    }
    match b {
        0xC2..=0xDF => wants(1, 0x80, 0xBF),
        0xE0 => wants(2, 0xA0, 0xBF),
        0xED => wants(2, 0x80, 0x9F),
        0xE1..=0xEF => wants(2, 0x80, 0xBF),
        0xF0 => wants(3, 0x90, 0xBF),
        0xF1..=0xF3 => wants(3, 0x80, 0xBF),
        0xF4 => wants(3, 0x80, 0x8F),
        _ => wants(1, 1, 0),
    }
}

// One byte further: the first of a character, or one that the character wants.
pub(crate) fn next(a: Awaits, b: u8) -> Awaits
    ensures { (t : List ℕ) → characters (ranges a) (b ∷ t) ≡ characters (ranges result) t }
{
    if a.left == 0 {
        return lead(b);
    }
    if b < a.low || a.high < b {
        return wants(1, 1, 0);
    }
    wants(a.left - 1, 0x80, 0xBF)
}
