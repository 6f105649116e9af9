// A definition's own parameters as binders.
ghost use Rattle.std.specs.Prelude.{◌≤◌, length};
ghost use Rattle.expand_definitions.specs.own_params.Own.{Params, Own};

use layout::items::{name_past, number, past};
use lift_tables::tables::put_binder;
use walker::ends::inner_end;

// The parameters whose count stands at a place become binders; the place behind them.
pub(crate) fn own_params(s: &[u8], at: usize, binders: &mut [u16]) -> usize
    requires { Params s.now at × (length s.now ≤ 16384) × (length s.now ≤ length binders.old) }
    ensures { Own s.now at binders.new result }
{
    let count = usize::from(number(s, at));
    let mut here = past(s, at, 2);
    for b in 0..count {
        let inner = name_past(s, here);
        let end = inner_end(s, inner);
        put_binder(binders, b, here, inner, true, end - inner);
        here = end;
    }
    here
}
