// The parameters of a lift: the free names of a combinator, each once, in byte order.
ghost use Rattle.std.specs.Prelude.{◌≡◌, length};
ghost use Rattle.definition.specs.Names.{eq_name};
ghost use Rattle.buffer.specs.writes.Buf.{put};
ghost use Rattle.collect_params.specs.uses.Uses.{name_in};
ghost use Rattle.collect_params.specs.params.Once.{once, sorted_by};
ghost use Rattle.collect_params.specs.params.Params.{params_at};

use crate::collect::collect_params;
use crate::sort::sort;
use crate::uses::name_of_use;
use layout::lookup::same_name;
use what_comes_back::Code;

// Whether two uses mean one name. That is no `==` on uses, and their order no `Ord`: a use means a name only beside the book.
fn same_use(s: &[u8], x: u32, y: u32) -> bool
    ensures { result ≡ eq_name (name_in s.now x) (name_in s.now y) }
{
    same_name(name_of_use(s, x), name_of_use(s, y))
}

// Of uses that are in order, the first of those that mean one name. By places, since they are written into the table that is read.
fn each_once(s: &[u8], uses: &mut [u32]) -> usize
    ensures { (result ≡ length (once s.now uses.old)) × (uses.new ≡ put uses.old 0 (once s.now uses.old)) }
{
    if uses.is_empty() {
        return 0;
    }
    let mut last = uses[0];
    let mut m = 1;
    for i in 1..uses.len() {
        let x = uses[i];
        if !same_use(s, last, x) {
            uses[m] = x;
            m += 1;
            last = x;
        }
    }
    m
}

// The first n uses in the byte order of their names, each name once; gives how many are left. 24 halvings are enough for 2 ^ 24 uses.
fn sorted_params(s: &[u8], uses: &mut [u32], n: usize, spare: &mut [u32]) -> usize
    ensures { (result ≡ (sorted_by s.now uses.old n spare.old).0) × (uses.new ≡ (sorted_by s.now uses.old n spare.old).1) × (spare.new ≡ (sorted_by s.now uses.old n spare.old).2) }
{
    let end = n.min(uses.len()).min(spare.len());
    sort(s, &mut uses[..end], 24, &mut spare[..end]);
    each_once(s, &mut uses[..end])
}

// How many parameters a lift of the combinator at a place has: `uses` then holds them. Or code 7. The tables go one by one
// for the reason at `expand_combinator`.
#[tactic(auto, unfolding(crate::specs::params::Params::params_at, crate::specs::params::Params::sorted_or))]
pub fn lift_params(
    s: &[u8],
    at: usize,
    bound: &mut [u32],
    uses: &mut [u32],
    spare: &mut [u32],
) -> Result<usize, Code>
    ensures { (result ≡ (params_at s.now at bound.old uses.old spare.old).0) × (bound.new ≡ (params_at s.now at bound.old uses.old spare.old).1) × (uses.new ≡ (params_at s.now at bound.old uses.old spare.old).2) × (spare.new ≡ (params_at s.now at bound.old uses.old spare.old).3) }
{
    let n = collect_params(s, at, bound, uses)?;
    Ok(sorted_params(s, uses, n, spare))
}
