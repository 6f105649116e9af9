// A hash of a name, and the bits that tell names apart.
ghost use Rattle.std.specs.Prelude.{◌≡◌, ◌+◌, ◌*◌, ◌≤◌, ◌<◌, length, get_or, drop};
ghost use Rattle.layout.specs.hash.Hash.{mixed, fours, bytes_from, hash_of, bit_at};

use crate::items::byte;

// A hash with a word mixed into it.
fn mix(hash: usize, word: usize) -> usize
    requires { (hash < 4294967296) × (word < 4294967296) }
    ensures { (result ≡ mixed hash word) × (result < 4294967296) }
{
    let p = (hash + word + 1) * 1640531527;
    (p + p / 4294967296) % 4294967296
}

// The hash of a name: four bytes at a time, and the last ones, fewer than four, one by one.
pub fn name_hash(name: &[u8]) -> u32
    ensures { result ≡ hash_of name.now }
{
    let (fours, rest) = name.as_chunks::<4>();
    let mut g: usize = 0;
    let mut h: usize = 0;
    for four in fours {
        let word = u32::from_le_bytes(*four) as usize;
        g = mix(g, word);
        h = (h + word + 1) % 4294967296 * 2654435761 % 4294967296;
    }
    h = mix(g, h);
    for b in rest {
        h = mix(h, *b as usize);
    }
    h as u32
}

// A name and its hash.
#[derive(Clone, Copy)]
pub struct Hashed<'a> {
    pub name: &'a [u8],
    pub hash: u32,
    ghost is: { hash ≡ hash_of name.now },
}

impl<'a> Hashed<'a> {
    pub fn of(name: &'a [u8]) -> Hashed<'a>
        ensures { result.name.now ≡ name.now }
    {
        Hashed {
            name,
            hash: name_hash(name),
        }
    }

    // A bit of the name: one of the hash, or one of its own behind these; 0 behind its end.
    pub fn bit(self, d: usize) -> usize
        ensures { (result ≡ bit_at self.entry.name.now d) × (result ≤ 1) }
    {
        if d < 32 {
            let h = self.hash as usize;
            return (h >> (31 - d)) % 2;
        }
        let own = d - 32;
        let x = byte(self.name, own / 8) as usize;
        (x >> (own % 8)) % 2
    }
}
