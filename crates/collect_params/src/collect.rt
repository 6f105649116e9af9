// The names that are free in a combinator, by position over validated bytes.
// A walk beside walker's: its state has labels and uses, which those would carry along.
// The two tables go beside the walk from function to function: as fields of a struct they would be `&mut`, and each function would promise
// besides that it hands the same references back. `fields`, `cases` and `arguments` count by themselves: a step that one loop is given would
// borrow both tables, and stand in the cycle.
ghost use Rattle.std.specs.Prelude.{◌≡◌};
ghost use Rattle.collect_params.specs.collect.Walk.{combinator_at, argument_at, inner_at, chain_at, field_at, fields_at, wrap_at, case_at, cases_at, choice_at, array_at, arguments_at, macro_at, collect_at, answer_of};

use crate::roots::{call, roots, selector};
use crate::scope::Walk;
use layout::flags::MORE;
use layout::items::{byte, label_past, name_past, number, past, stands_on, text_past};
use layout::kinds::{CONST, DEPENDENT};
use layout::tags::{ARRAY, BYTES, CHOICE, INVOCATION, MACRO_INVOCATION, OPTION, STRUCT, VEC, WRAP};
use what_comes_back::Code;

// A combinator, with so many levels left, its own included.
#[cycle(collect)]
#[tactic(auto, using(crate::proofs::collect::Level::combinator_level), unfolding(crate::specs::collect::Walk::combinator_by, crate::specs::collect::Walk::tail_by))]
fn collect_params_with_bound(
    s: &[u8],
    w: Walk,
    levels: usize,
    bound: &mut [u32],
    uses: &mut [u32],
) -> Walk
    ensures { (result ≡ (combinator_at levels s.now w bound.old uses.old).0) × (bound.new ≡ (combinator_at levels s.now w bound.old uses.old).1) × (uses.new ≡ (combinator_at levels s.now w bound.old uses.old).2) }
{
    if levels == 0 {
        return w;
    }
    let tag = byte(s, w.at);
    let v = inner(s, w, levels - 1, bound, uses);
    let more = byte(s, v.at);
    let u = v.moved(past(s, v.at, 1));
    if more == MORE {
        return chain(s, u, tag, levels - 1, bound, uses);
    }
    u
}

// A chain on an inner with this tag. Where it is not collected it is gone over all the same, to find its end: a count past the table's end
// takes no use.
#[cycle(collect)]
#[tactic(auto, unfolding(crate::specs::collect::Walk::chain_by))]
fn chain(s: &[u8], w: Walk, tag: u8, levels: usize, bound: &mut [u32], uses: &mut [u32]) -> Walk
    ensures { (result ≡ (chain_at levels s.now tag w bound.old uses.old).0) × (bound.new ≡ (chain_at levels s.now tag w bound.old uses.old).1) × (uses.new ≡ (chain_at levels s.now tag w bound.old uses.old).2) }
{
    if stands_on(tag) {
        return collect_params_with_bound(s, w, levels, bound, uses);
    }
    let v = w.counted(w.at, uses.len() + 1);
    let u = collect_params_with_bound(s, v, levels, bound, uses);
    w.moved(u.at)
}

// An inner, with so many levels left below it.
#[cycle(collect)]
#[tactic(auto, unfolding(crate::specs::collect::Walk::inner_by))]
fn inner(s: &[u8], w: Walk, levels: usize, bound: &mut [u32], uses: &mut [u32]) -> Walk
    ensures { (result ≡ (inner_at levels s.now w bound.old uses.old).0) × (bound.new ≡ (inner_at levels s.now w bound.old uses.old).1) × (uses.new ≡ (inner_at levels s.now w bound.old uses.old).2) }
{
    let tag = byte(s, w.at);
    let a = past(s, w.at, 1);
    let v = w.moved(a);
    match tag {
        STRUCT => fields(s, v, levels, bound, uses),
        WRAP => wrap(s, v, levels, bound, uses),
        CHOICE => choice(s, v, levels, bound, uses),
        VEC | OPTION => collect_params_with_bound(s, v, levels, bound, uses),
        ARRAY => array(s, v, levels, bound, uses),
        BYTES => roots(s, v, &bound[..], uses),
        INVOCATION => call(s, v, &bound[..], uses),
        MACRO_INVOCATION => macro_call(s, v, levels, bound, uses),
        _ => w.moved(text_past(s, a)),
    }
}

// A count, and as many fields. A struct's labels are bound no longer behind it.
#[cycle(collect)]
#[tactic(auto, using(crate::proofs::collect::Level::start, crate::proofs::collect::Level::more, crate::proofs::collect::Level::done), unfolding(crate::specs::collect::Walk::many, crate::specs::collect::Walk::fields_by))]
fn fields(s: &[u8], w: Walk, levels: usize, bound: &mut [u32], uses: &mut [u32]) -> Walk
    ensures { (result ≡ (fields_at levels s.now w bound.old uses.old).0) × (bound.new ≡ (fields_at levels s.now w bound.old uses.old).1) × (uses.new ≡ (fields_at levels s.now w bound.old uses.old).2) }
{
    let k = number(s, w.at);
    let mut here = w.moved(past(s, w.at, 2));
    for _ in 0..k {
        here = field(s, here, levels, bound, uses);
    }
    here.unbound(w)
}

#[cycle(collect)]
#[tactic(auto, unfolding(crate::specs::collect::Walk::field_by))]
fn field(s: &[u8], w: Walk, levels: usize, bound: &mut [u32], uses: &mut [u32]) -> Walk
    ensures { (result ≡ (field_at levels s.now w bound.old uses.old).0) × (bound.new ≡ (field_at levels s.now w bound.old uses.old).1) × (uses.new ≡ (field_at levels s.now w bound.old uses.old).2) }
{
    let kind = byte(s, w.at);
    let a = past(s, w.at, 1);
    let b = name_past(s, a);
    if kind == CONST {
        return w.moved(text_past(s, b));
    }
    let u = collect_params_with_bound(s, w.moved(b), levels, bound, uses);
    if kind == DEPENDENT {
        return u.bind(s, a, bound);
    }
    u
}

#[cycle(collect)]
#[tactic(auto, unfolding(crate::specs::collect::Walk::wrap_by))]
fn wrap(s: &[u8], w: Walk, levels: usize, bound: &mut [u32], uses: &mut [u32]) -> Walk
    ensures { (result ≡ (wrap_at levels s.now w bound.old uses.old).0) × (bound.new ≡ (wrap_at levels s.now w bound.old uses.old).1) × (uses.new ≡ (wrap_at levels s.now w bound.old uses.old).2) }
{
    let v = w.moved(text_past(s, w.at));
    let u = collect_params_with_bound(s, v, levels, bound, uses);
    u.moved(text_past(s, u.at))
}

#[cycle(collect)]
#[tactic(auto, unfolding(crate::specs::collect::Walk::choice_by))]
fn choice(s: &[u8], w: Walk, levels: usize, bound: &mut [u32], uses: &mut [u32]) -> Walk
    ensures { (result ≡ (choice_at levels s.now w bound.old uses.old).0) × (bound.new ≡ (choice_at levels s.now w bound.old uses.old).1) × (uses.new ≡ (choice_at levels s.now w bound.old uses.old).2) }
{
    let v = selector(s, w, &bound[..], uses);
    let kind = byte(s, v.at);
    let u = v.moved(past(s, v.at, 1));
    cases(s, u, kind, levels, bound, uses)
}

// A count, and as many cases.
#[cycle(collect)]
#[tactic(auto, using(crate::proofs::collect::Level::start, crate::proofs::collect::Level::more, crate::proofs::collect::Level::done), unfolding(crate::specs::collect::Walk::many))]
fn cases(s: &[u8], w: Walk, kind: u8, levels: usize, bound: &mut [u32], uses: &mut [u32]) -> Walk
    ensures { (result ≡ (cases_at levels s.now kind w bound.old uses.old).0) × (bound.new ≡ (cases_at levels s.now kind w bound.old uses.old).1) × (uses.new ≡ (cases_at levels s.now kind w bound.old uses.old).2) }
{
    let k = number(s, w.at);
    let mut here = w.moved(past(s, w.at, 2));
    for _ in 0..k {
        here = case(s, here, kind, levels, bound, uses);
    }
    here
}

#[cycle(collect)]
#[tactic(auto, unfolding(crate::specs::collect::Walk::case_by))]
fn case(s: &[u8], w: Walk, kind: u8, levels: usize, bound: &mut [u32], uses: &mut [u32]) -> Walk
    ensures { (result ≡ (case_at levels s.now kind w bound.old uses.old).0) × (bound.new ≡ (case_at levels s.now kind w bound.old uses.old).1) × (uses.new ≡ (case_at levels s.now kind w bound.old uses.old).2) }
{
    let v = w.moved(label_past(s, w.at, kind));
    collect_params_with_bound(s, v, levels, bound, uses)
}

#[cycle(collect)]
#[tactic(auto, unfolding(crate::specs::collect::Walk::array_by))]
fn array(s: &[u8], w: Walk, levels: usize, bound: &mut [u32], uses: &mut [u32]) -> Walk
    ensures { (result ≡ (array_at levels s.now w bound.old uses.old).0) × (bound.new ≡ (array_at levels s.now w bound.old uses.old).1) × (uses.new ≡ (array_at levels s.now w bound.old uses.old).2) }
{
    let v = roots(s, w, &bound[..], uses);
    collect_params_with_bound(s, v, levels, bound, uses)
}

// A MacroInvocation behind its tag. Its arguments hold no use.
#[cycle(collect)]
#[tactic(auto, unfolding(crate::specs::collect::Walk::macro_by))]
fn macro_call(s: &[u8], w: Walk, levels: usize, bound: &mut [u32], uses: &mut [u32]) -> Walk
    ensures { (result ≡ (macro_at levels s.now w bound.old uses.old).0) × (bound.new ≡ (macro_at levels s.now w bound.old uses.old).1) × (uses.new ≡ (macro_at levels s.now w bound.old uses.old).2) }
{
    let v = w.counted(name_past(s, w.at), uses.len() + 1);
    let u = arguments(s, v, levels, bound, uses);
    Walk {
        at: u.at,
        leftover: true,
        ..w
    }
}

// A count, and as many macro arguments.
#[cycle(collect)]
#[tactic(auto, using(crate::proofs::collect::Level::start, crate::proofs::collect::Level::more, crate::proofs::collect::Level::done), unfolding(crate::specs::collect::Walk::many))]
fn arguments(s: &[u8], w: Walk, levels: usize, bound: &mut [u32], uses: &mut [u32]) -> Walk
    ensures { (result ≡ (arguments_at levels s.now w bound.old uses.old).0) × (bound.new ≡ (arguments_at levels s.now w bound.old uses.old).1) × (uses.new ≡ (arguments_at levels s.now w bound.old uses.old).2) }
{
    let k = number(s, w.at);
    let mut here = w.moved(past(s, w.at, 2));
    for _ in 0..k {
        here = argument(s, here, levels, bound, uses);
    }
    here
}

#[cycle(collect)]
#[tactic(auto, using(crate::proofs::collect::Level::argument_level), unfolding(crate::specs::collect::Walk::argument_by))]
fn argument(s: &[u8], w: Walk, levels: usize, bound: &mut [u32], uses: &mut [u32]) -> Walk
    ensures { (result ≡ (argument_at levels s.now w bound.old uses.old).0) × (bound.new ≡ (argument_at levels s.now w bound.old uses.old).1) × (uses.new ≡ (argument_at levels s.now w bound.old uses.old).2) }
{
    if levels == 0 {
        return w;
    }
    inner(s, w, levels - 1, bound, uses)
}

// The uses of names that are free in the combinator at a place, one for each use, or code 7 where a macro call is left in it.
// Each use takes a byte of s at least and each Dependent field four: 16,384 places for uses are enough for any book, and 16,896 for its labels,
// four for each and 64 more.
#[tactic(auto, unfolding(crate::specs::collect::Walk::collect_at))]
pub(crate) fn collect_params(
    s: &[u8],
    at: usize,
    bound: &mut [u32],
    uses: &mut [u32],
) -> Result<usize, Code>
    ensures { (result ≡ answer_of (collect_at s.now at bound.old uses.old).0) × (bound.new ≡ (collect_at s.now at bound.old uses.old).1) × (uses.new ≡ (collect_at s.now at bound.old uses.old).2) }
{
    let w = Walk {
        at,
        n: 0,
        b: 0,
        leftover: false,
    };
    let u = collect_params_with_bound(s, w, 64, bound, uses);
    if u.leftover {
        return Err(Code::LeftoverMacro);
    }
    Ok(u.n)
}
