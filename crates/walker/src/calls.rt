// The walker over the calls and chains of a combinator, by position over validated bytes. It goes over all of the combinator in layout order and
// records where each Invocation and MacroInvocation stands that is at a walked position: not those inside macro arguments.
// The marks stand beside the walk: as a field they would be `&mut`, and each function would promise besides that the same reference comes back.
ghost use Rattle.std.specs.Prelude.{◌≡◌, ◌+◌};
ghost use Rattle.walker.specs.calls.Walk.{combinator_at, inner_at, fields_at, field_at, wrap_at, choice_at, cases_at, case_at, array_at, macro_at, arguments_at, argument_at};

use crate::marks::{call, mark};
use crate::walk::{Walk, text_or_length};
use layout::flags::MORE;
use layout::items::{
    byte, label_past, length_past, name_past, number, past, selector_past, text_past,
};
use layout::kinds::CONST;
use layout::tags::{ARRAY, CHOICE, INVOCATION, MACRO_INVOCATION, OPTION, STRUCT, VEC, WRAP};

// A combinator, with so many levels left, its own included.
#[cycle(calls)]
pub(crate) fn combinator(s: &[u8], w: Walk, levels: usize, marks: &mut [u16]) -> Walk
    ensures { (result ≡ (combinator_at levels s.now w marks.old).0) × (marks.new ≡ (combinator_at levels s.now w marks.old).1) }
{
    if levels == 0 {
        return w;
    }
    let tag = byte(s, w.at);
    let v = inner(s, w, levels - 1, marks);
    let more = byte(s, v.at);
    let u = v.moved(past(s, v.at, 1));
    if more == MORE {
        return combinator(s, u.chained_to(tag), levels - 1, marks);
    }
    u
}

// An inner, with so many levels left below it.
#[cycle(calls)]
#[tactic(auto, unfolding(crate::specs::calls::Walk::inner_by))]
pub(crate) fn inner(s: &[u8], w: Walk, levels: usize, marks: &mut [u16]) -> Walk
    ensures { (result ≡ (inner_at levels s.now w marks.old).0) × (marks.new ≡ (inner_at levels s.now w marks.old).1) }
{
    let at = w.at;
    let tag = byte(s, at);
    let a = past(s, at, 1);
    let v = w.entered(a, levels);
    match tag {
        STRUCT => fields(s, v, levels, marks),
        WRAP => wrap(s, v, levels, marks),
        CHOICE => choice(s, v, levels, marks),
        VEC | OPTION => combinator(s, v, levels, marks),
        ARRAY => array(s, v, levels, marks),
        INVOCATION => call(s, v, at, marks),
        MACRO_INVOCATION => macro_call(s, v, at, levels, marks),
        _ => v.moved(text_or_length(s, a, tag)),
    }
}

// A count, and as many fields. The loops over fields, cases and arguments stay three: a closure for the step would repeat the step's clauses.
#[cycle(calls)]
fn fields(s: &[u8], w: Walk, levels: usize, marks: &mut [u16]) -> Walk
    ensures { (result ≡ (fields_at levels s.now w marks.old).0) × (marks.new ≡ (fields_at levels s.now w marks.old).1) }
{
    let k = number(s, w.at);
    let mut here = w.moved(past(s, w.at, 2));
    for _ in 0..k {
        here = field(s, here, levels, marks);
    }
    here
}

#[cycle(calls)]
#[tactic(auto, unfolding(crate::specs::calls::Walk::field_by))]
fn field(s: &[u8], w: Walk, levels: usize, marks: &mut [u16]) -> Walk
    ensures { (result ≡ (field_at levels s.now w marks.old).0) × (marks.new ≡ (field_at levels s.now w marks.old).1) }
{
    let kind = byte(s, w.at);
    let b = name_past(s, past(s, w.at, 1));
    if kind == CONST {
        return w.moved(text_past(s, b));
    }
    combinator(s, w.moved(b), levels, marks)
}

#[cycle(calls)]
#[tactic(auto, unfolding(crate::specs::calls::Walk::wrap_by))]
fn wrap(s: &[u8], w: Walk, levels: usize, marks: &mut [u16]) -> Walk
    ensures { (result ≡ (wrap_at levels s.now w marks.old).0) × (marks.new ≡ (wrap_at levels s.now w marks.old).1) }
{
    let v = w.moved(text_past(s, w.at));
    let u = combinator(s, v, levels, marks);
    u.moved(text_past(s, u.at))
}

#[cycle(calls)]
#[tactic(auto, unfolding(crate::specs::calls::Walk::choice_by))]
fn choice(s: &[u8], w: Walk, levels: usize, marks: &mut [u16]) -> Walk
    ensures { (result ≡ (choice_at levels s.now w marks.old).0) × (marks.new ≡ (choice_at levels s.now w marks.old).1) }
{
    let a = selector_past(s, w.at);
    let kind = byte(s, a);
    cases(s, w.moved(past(s, a, 1)), kind, levels, marks)
}

// A count, and as many cases.
#[cycle(calls)]
fn cases(s: &[u8], w: Walk, kind: u8, levels: usize, marks: &mut [u16]) -> Walk
    ensures { (result ≡ (cases_at levels s.now kind w marks.old).0) × (marks.new ≡ (cases_at levels s.now kind w marks.old).1) }
{
    let k = number(s, w.at);
    let mut here = w.moved(past(s, w.at, 2));
    for _ in 0..k {
        here = case(s, here, kind, levels, marks);
    }
    here
}

#[cycle(calls)]
#[tactic(auto, unfolding(crate::specs::calls::Walk::case_by))]
fn case(s: &[u8], w: Walk, kind: u8, levels: usize, marks: &mut [u16]) -> Walk
    ensures { (result ≡ (case_at levels s.now kind w marks.old).0) × (marks.new ≡ (case_at levels s.now kind w marks.old).1) }
{
    let v = w.moved(label_past(s, w.at, kind));
    combinator(s, v, levels, marks)
}

#[cycle(calls)]
#[tactic(auto, unfolding(crate::specs::calls::Walk::array_by))]
fn array(s: &[u8], w: Walk, levels: usize, marks: &mut [u16]) -> Walk
    ensures { (result ≡ (array_at levels s.now w marks.old).0) × (marks.new ≡ (array_at levels s.now w marks.old).1) }
{
    let v = w.moved(length_past(s, w.at));
    combinator(s, v, levels, marks)
}

// A MacroInvocation whose tag stands at `at`; the walk stands behind the tag. Its arguments are gone over with nothing recorded:
// a place past the end of the row takes no mark.
#[cycle(calls)]
#[tactic(auto, unfolding(crate::specs::calls::Walk::macro_by))]
fn macro_call(s: &[u8], w: Walk, at: usize, levels: usize, marks: &mut [u16]) -> Walk
    ensures { (result ≡ (macro_at levels s.now at w marks.old).0) × (marks.new ≡ (macro_at levels s.now at w marks.old).1) }
{
    let v = w.silent(name_past(s, w.at), marks.len() + 1);
    let u = arguments(s, v, levels, marks);
    mark(w.back(u), at, u.at, marks)
}

// A count, and as many macro arguments.
#[cycle(calls)]
fn arguments(s: &[u8], w: Walk, levels: usize, marks: &mut [u16]) -> Walk
    ensures { (result ≡ (arguments_at levels s.now w marks.old).0) × (marks.new ≡ (arguments_at levels s.now w marks.old).1) }
{
    let k = number(s, w.at);
    let mut here = w.moved(past(s, w.at, 2));
    for _ in 0..k {
        here = argument(s, here, levels, marks);
    }
    here
}

#[cycle(calls)]
fn argument(s: &[u8], w: Walk, levels: usize, marks: &mut [u16]) -> Walk
    ensures { (result ≡ (argument_at levels s.now w marks.old).0) × (marks.new ≡ (argument_at levels s.now w marks.old).1) }
{
    if levels == 0 {
        return w;
    }
    inner(s, w, levels - 1, marks)
}
