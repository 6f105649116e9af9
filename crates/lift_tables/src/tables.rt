// Numbers as tables keep them, in 16 bits; in the sheet in two bytes each, since it is lent as bytes (fixed memory).
ghost use Rattle.std.specs.Prelude.{◌≡◌, ◌≤◌, cond, min, get_or, set};
ghost use Rattle.lift_tables.specs.tables.Rows.{with_param};
ghost use Rattle.lift_tables.specs.tables.Numbers.{plus};
ghost use Rattle.lift_tables.specs.tables.Parts.{pairs, StoredIn};

use buffer::table::set_item;
use layout::items::number;

// The sheet's parts, one behind the other: the byte at which each begins, and how many numbers of two bytes stand in it. The names have no end but
// the sheet's.
pub const ORDER: usize = 0;

pub const ORDER_NUMBERS: usize = 512;

pub const ROWS: usize = 1024;

pub const ROW_NUMBERS: usize = 2560;

pub const PARAMS: usize = 6144;

pub const PARAM_NUMBERS: usize = 13108;

pub const NAMES: usize = 32360;

// A number into a table, as far as the table reaches. 65,535 stands for all that are larger: no place is.
pub(crate) fn store(t: &mut [u16], i: usize, x: usize)
    ensures { t.new ≡ set t.old i (min x 65535) }
{
    set_item(t, i, x.min(65535) as u16);
}

// The number in two bytes of a table, the lower first, 0 past its end.
#[tactic(auto, using(crate::proofs::tables::Pairs::pairs_number, crate::proofs::tables::Pairs::pairs_out))]
pub fn pair(table: &[u8], at: usize) -> u16
    ensures { result ≡ get_or (pairs table.now) at 0 }
{
    if table.len() / 2 <= at {
        return 0;
    }
    number(table, 2 * at)
}

// A number into the part of n numbers, two bytes each, that begins at a place of a table, as far as the part and the table reach.
#[tactic(auto, using(crate::proofs::tables::Parts::stored_out))]
pub fn store_in(t: &mut [u8], from: usize, n: usize, i: usize, x: usize)
    ensures { StoredIn t.old from n i (min x 65535) t.new }
{
    let room = n.min(t.len().saturating_sub(from) / 2);
    if room <= i {
        return;
    }
    let y = x.min(65535);
    let at = from + 2 * i;
    let [low, high] = (y as u16).to_le_bytes();
    t[at] = low;
    t[at + 1] = high;
}

// The binder number j: its name's place, its type's, whether that is a parameter's own, and the type's size after lifting.
#[tactic(auto, unfolding(crate::specs::tables::Rows::with_param))]
pub fn put_binder(binders: &mut [u16], j: usize, name: usize, at: usize, own: bool, size: usize)
    requires { j ≤ 65536 }
    ensures { binders.new ≡ with_param binders.old j (min name 65535) (min at 65535) (cond own 1 0) (min size 65535) }
{
    store(binders, 4 * j, name);
    store(binders, 4 * j + 1, at);
    store(binders, 4 * j + 2, if own { 1 } else { 0 });
    store(binders, 4 * j + 3, size);
}

// A sum, or 65,535 where it is larger: cut and not refused, since code 10 comes later, and a cut size is over its limit.
#[tactic(auto, unfolding(crate::specs::tables::Numbers::plus))]
pub fn plus(a: usize, b: usize) -> usize
    ensures { result ≡ plus a b }
{
    a.saturating_add(b).min(65535)
}
