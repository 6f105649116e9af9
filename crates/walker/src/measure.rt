// One walk over a combinator that fills the table of ends: where the inner at each place that it comes to ends. By position and total on any bytes.
// It goes the way of `calls` with another state and into macro arguments too: one walk for both would carry both states through every step.
// Its three loops stay three and the table stands beside the place, as in `calls`, for the reasons there.
ghost use Rattle.std.specs.Prelude.{◌≡◌};
ghost use Rattle.walker.specs.measure.Measure.{kept, combinator_at, inner_at, behind_at, fields_at, field_at, wrap_at, choice_at, arguments_at, argument_at};

use crate::walk::text_or_length;
use buffer::table::set_item;
use layout::flags::MORE;
use layout::items::{
    byte, label_past, length_past, list_past, name_past, number, past, selector_past, text_past,
};
use layout::kinds::CONST;
use layout::tags::{ARRAY, CHOICE, INVOCATION, MACRO_INVOCATION, OPTION, STRUCT, VEC, WRAP};

// An end into the table, as far as the table reaches and two bytes tell it.
#[tactic(auto, unfolding(crate::specs::measure::Measure::kept))]
fn keep(at: usize, end: usize, ends: &mut [u16])
    ensures { ends.new ≡ kept ends.old at end }
{
    if let Ok(end) = u16::try_from(end) {
        set_item(ends, at, end);
    }
}

// A combinator, with so many levels left, its own included; the place behind it.
#[cycle(measure)]
pub(crate) fn measure_combinator(s: &[u8], at: usize, levels: usize, ends: &mut [u16]) -> usize
    ensures { (result ≡ (combinator_at levels s.now at ends.old).0) × (ends.new ≡ (combinator_at levels s.now at ends.old).1) }
{
    if levels == 0 {
        return at;
    }
    let e = measure_inner(s, at, levels - 1, ends);
    let a = past(s, e, 1);
    if byte(s, e) == MORE {
        return measure_combinator(s, a, levels - 1, ends);
    }
    a
}

// An inner, with so many levels left below it. Its end is kept.
#[cycle(measure)]
#[tactic(auto, unfolding(crate::specs::measure::Measure::inner_by))]
pub(crate) fn measure_inner(s: &[u8], at: usize, levels: usize, ends: &mut [u16]) -> usize
    ensures { (result ≡ (inner_at levels s.now at ends.old).0) × (ends.new ≡ (inner_at levels s.now at ends.old).1) }
{
    let tag = byte(s, at);
    let e = behind(s, tag, past(s, at, 1), levels, ends);
    keep(at, e, ends);
    e
}

// What stands behind the tag of an inner.
#[cycle(measure)]
#[tactic(auto, unfolding(crate::specs::measure::Measure::behind_by))]
fn behind(s: &[u8], tag: u8, at: usize, levels: usize, ends: &mut [u16]) -> usize
    ensures { (result ≡ (behind_at levels s.now tag at ends.old).0) × (ends.new ≡ (behind_at levels s.now tag at ends.old).1) }
{
    match tag {
        STRUCT => fields(s, at, levels, ends),
        WRAP => wrap(s, at, levels, ends),
        CHOICE => choice(s, at, levels, ends),
        VEC | OPTION => measure_combinator(s, at, levels, ends),
        ARRAY => measure_combinator(s, length_past(s, at), levels, ends),
        INVOCATION => list_past(s, name_past(s, at)),
        MACRO_INVOCATION => arguments(s, name_past(s, at), levels, ends),
        _ => text_or_length(s, at, tag),
    }
}

// A count, and as many fields.
#[cycle(measure)]
fn fields(s: &[u8], at: usize, levels: usize, ends: &mut [u16]) -> usize
    ensures { (result ≡ (fields_at levels s.now at ends.old).0) × (ends.new ≡ (fields_at levels s.now at ends.old).1) }
{
    let k = number(s, at);
    let mut here = past(s, at, 2);
    for _ in 0..k {
        here = field(s, here, levels, ends);
    }
    here
}

#[cycle(measure)]
#[tactic(auto, unfolding(crate::specs::measure::Measure::field_by))]
fn field(s: &[u8], at: usize, levels: usize, ends: &mut [u16]) -> usize
    ensures { (result ≡ (field_at levels s.now at ends.old).0) × (ends.new ≡ (field_at levels s.now at ends.old).1) }
{
    let b = name_past(s, past(s, at, 1));
    if byte(s, at) == CONST {
        return text_past(s, b);
    }
    measure_combinator(s, b, levels, ends)
}

#[cycle(measure)]
#[tactic(auto, unfolding(crate::specs::measure::Measure::wrap_by))]
fn wrap(s: &[u8], at: usize, levels: usize, ends: &mut [u16]) -> usize
    ensures { (result ≡ (wrap_at levels s.now at ends.old).0) × (ends.new ≡ (wrap_at levels s.now at ends.old).1) }
{
    let b = measure_combinator(s, text_past(s, at), levels, ends);
    text_past(s, b)
}

// A selector, the cases' kind, a count, and as many cases.
#[cycle(measure)]
fn choice(s: &[u8], at: usize, levels: usize, ends: &mut [u16]) -> usize
    ensures { (result ≡ (choice_at levels s.now at ends.old).0) × (ends.new ≡ (choice_at levels s.now at ends.old).1) }
{
    let a = selector_past(s, at);
    let kind = byte(s, a);
    let b = past(s, a, 1);
    let k = number(s, b);
    let mut here = past(s, b, 2);
    for _ in 0..k {
        here = measure_combinator(s, label_past(s, here, kind), levels, ends);
    }
    here
}

// A count, and as many macro arguments.
#[cycle(measure)]
fn arguments(s: &[u8], at: usize, levels: usize, ends: &mut [u16]) -> usize
    ensures { (result ≡ (arguments_at levels s.now at ends.old).0) × (ends.new ≡ (arguments_at levels s.now at ends.old).1) }
{
    let k = number(s, at);
    let mut here = past(s, at, 2);
    for _ in 0..k {
        here = argument(s, here, levels, ends);
    }
    here
}

#[cycle(measure)]
fn argument(s: &[u8], at: usize, levels: usize, ends: &mut [u16]) -> usize
    ensures { (result ≡ (argument_at levels s.now at ends.old).0) × (ends.new ≡ (argument_at levels s.now at ends.old).1) }
{
    if levels == 0 {
        return at;
    }
    measure_inner(s, at, levels - 1, ends)
}
