// What is done on the way: a Const field that is passed, a child that is walked, a node that is at its end.
ghost use Rattle.std.specs.Prelude.{◌≡◌, ◌≤◌};
ghost use Rattle.lift_tables.specs.tables.Parts.{order_in, rows_in_of, params_in, made_in, Parts};
ghost use Rattle.lift_combinator.specs.done.Done.{passed, bind_by, bound_after, delivered, closed_of, order_of};

use crate::frames::{Frame, Kind};
use layout::items::{byte, past};
use layout::kinds::DEPENDENT;
use lift_tables::tables::{ORDER, ORDER_NUMBERS, plus, put_binder, store_in};

// What a node takes after lifting, its inner alone, and how many lifts are finished.
#[derive(Clone, Copy)]
pub struct Closed {
    pub whole: usize,
    pub inner: usize,
    pub finished: usize,
}

// The frame when a Const field that ends at `end` is passed.
#[tactic(auto, unfolding(crate::specs::done::Done::passed))]
pub fn pass(f: Frame, end: usize) -> Frame
    requires { f.child ≤ 65536 }
    ensures { result ≡ passed f end }
{
    Frame {
        here: end,
        left: f.left.saturating_sub(1),
        child: f.child + 1,
        done: plus(f.done, end.saturating_sub(f.here)),
        ..f
    }
}

// The child at a place is done: where it is a Dependent field's, its label is bound from here on. Gives how many binders are in force then.
#[tactic(auto, unfolding(crate::specs::done::Done::binding, crate::specs::done::Done::bind_by, crate::specs::done::Done::bound_after, crate::specs::done::Done::are_fields))]
fn bind_child(s: &[u8], f: Frame, at: usize, inner: usize, binders: &mut [u16]) -> usize
    requires { f.bound ≤ 65535 }
    ensures { (result ≡ bound_after s.now f) × (binders.new ≡ bind_by s.now f at inner binders.old) }
{
    if f.chained {
        return f.bound;
    }
    match f.kind {
        Kind::Fields => {
            if byte(s, f.here) != DEPENDENT {
                return f.bound;
            }
            put_binder(binders, f.bound, past(s, f.here, 1), at, false, inner);
            f.bound + 1
        }
        _ => f.bound,
    }
}

// The frame when its chain, or its child from `at` up to `end`, is done.
#[tactic(auto, unfolding(crate::specs::done::Done::delivered, crate::specs::done::Done::kind_after))]
fn deliver(f: Frame, at: usize, end: usize, whole: usize, bound: usize) -> Frame
    requires { f.child ≤ 65536 }
    ensures { result ≡ delivered f at end whole bound }
{
    if f.chained {
        return Frame {
            chained: false,
            link: whole,
            ..f
        };
    }
    let kind = match f.kind {
        Kind::One => Kind::Nothing,
        kind => kind,
    };
    let head = plus(f.done, at.saturating_sub(f.here));
    Frame {
        here: end,
        left: f.left.saturating_sub(1),
        kind,
        child: f.child + 1,
        bound,
        done: plus(head, whole),
        ..f
    }
}

// The end of a node: "its definition is appended after theirs".
#[tactic(auto, unfolding(crate::specs::done::Done::closed_of, crate::specs::done::Done::order_of))]
pub fn close_node(f: Frame, sheet: &mut [u8], n: usize) -> Closed
    requires { n ≤ 65536 }
    ensures { (result ≡ closed_of f n) × Parts sheet.new (order_of f (order_in sheet.old) n) (rows_in_of sheet.old) (params_in sheet.old) (made_in sheet.old) }
{
    if f.own != 0 {
        store_in(sheet, ORDER, ORDER_NUMBERS, n, f.own - 1);
        return Closed {
            whole: f.call,
            inner: f.call.saturating_sub(1),
            finished: n + 1,
        };
    }
    let inner = plus(f.done, f.end.saturating_sub(f.here));
    Closed {
        whole: plus(plus(inner, 1), f.link),
        inner,
        finished: n,
    }
}

// The frame p that waited for f, when that is done.
pub fn resume_node(s: &[u8], p: Frame, f: Frame, z: Closed, binders: &mut [u16]) -> Frame
    requires { (p.bound ≤ 65535) × (p.child ≤ 65536) }
    ensures { (result ≡ delivered p f.place f.last z.whole (bound_after s.now p)) × (binders.new ≡ bind_by s.now p f.place z.inner binders.old) }
{
    let bound = bind_child(s, p, f.place, z.inner, binders);
    deliver(p, f.place, f.last, z.whole, bound)
}
