// Uses of names: each is kept as one number, place and length packed in 32 bits and no struct of two, since 16,384 of them stand in a table.
ghost use Rattle.std.specs.Prelude.{◌≡◌, length};
ghost use Rattle.definition.specs.Names.{root};
ghost use Rattle.collect_params.specs.uses.Uses.{use_of_of, name_in, use_at_of};

use buffer::parts::part;
use layout::items::past;
use layout::lookup::name_at;

// A use of a name, from the place of its first byte and a length.
#[tactic(auto, unfolding(crate::specs::uses::Uses::use_of_of))]
fn use_of(place: usize, len: usize) -> u32
    ensures { result ≡ use_of_of place len }
{
    (place % 16777216 * 256 + len % 256) as u32
}

// The bytes of the name that a use means.
#[tactic(auto, unfolding(crate::specs::uses::Uses::name_in, buffer::specs::writes::Buf::part))]
pub fn name_of_use(s: &[u8], x: u32) -> &[u8]
    ensures { result.now ≡ name_in s.now x }
{
    let first = (x / 256) as usize;
    let n = (x % 256) as usize;
    part(s, first, first + n)
}

// How many bytes of a name stand before its first '.'.
fn root_length(name: &[u8]) -> usize
    ensures { result ≡ length (root name.now) }
{
    name.iter().position(|b| *b == b'.').unwrap_or(name.len())
}

// The use of the name whose length byte stands at a place, cut at its first '.' or not. `cut` is a flag, as the definition `use_at_of` takes one.
#[tactic(auto, unfolding(crate::specs::uses::Uses::use_at_of))]
pub(crate) fn use_at(s: &[u8], at: usize, cut: bool) -> u32
    ensures { result ≡ use_at_of s.now at cut }
{
    let first = past(s, at, 1);
    let name = name_at(s, at);
    use_of(first, if cut { root_length(name) } else { name.len() })
}
