// A flat book, out of which nothing is lifted: it is told by one walk, by position over validated bytes, and copied.
ghost use Rattle.std.specs.Prelude.{◌≡◌};
ghost use Rattle.walker.specs.bodies.Tested.{FormatTested, DefinitionTested};
ghost use Rattle.lift_book.specs.flat.Flat.{flat};
ghost use Rattle.lift_book.specs.flat.Past.{calm_past_of, inner_past_of, wrap_past_of, tail_past_of, field_past_of, fields_past_of, choice_past_of, root_past_of, body_past_of};
ghost use Rattle.lift_book.specs.flat.Told.{Told};

use layout::flags::MORE;
use layout::items::{
    byte, label_past, length_past, list_past, name_past, number, past, selector_past, text_past,
};
use layout::kinds::{CONST, FORMAT};
use layout::tags::{
    ARRAY, BITS, CHOICE, ENUM, INVOCATION, MACRO_INVOCATION, OPTION, STRUCT, VEC, WRAP,
};
use walker::definitions::{each_definition, params_past};
use walker::ends::inner_end;
use walker::walk::text_or_length;

// Where a combinator ends, with so many levels left; nowhere where a struct, choice, enum or bits stands in it.
#[cycle(calm)]
#[tactic(auto, using(crate::proofs::flat::Level::calm_level), unfolding(crate::specs::flat::Past::combinator_by))]
fn calm_past(s: &[u8], at: usize, levels: usize) -> Option<usize>
    ensures { result ≡ calm_past_of levels s.now at }
{
    if levels == 0 {
        return None;
    }
    let e = inner_past(s, at, levels - 1)?;
    tail_past(s, e, levels - 1)
}

// The same of an inner, with so many levels left below it.
#[cycle(calm)]
#[tactic(auto, unfolding(crate::specs::flat::Past::inner_by))]
fn inner_past(s: &[u8], at: usize, levels: usize) -> Option<usize>
    ensures { result ≡ inner_past_of levels s.now at }
{
    let tag = byte(s, at);
    let a = past(s, at, 1);
    match tag {
        BITS | STRUCT | ENUM | CHOICE => None,
        WRAP => wrap_past(s, a, levels),
        VEC | OPTION => calm_past(s, a, levels),
        ARRAY => calm_past(s, length_past(s, a), levels),
        INVOCATION => Some(list_past(s, name_past(s, a))),
        MACRO_INVOCATION => Some(inner_end(s, at)),
        _ => Some(text_or_length(s, a, tag)),
    }
}

#[cycle(calm)]
#[tactic(auto, unfolding(crate::specs::flat::Past::wrap_by))]
fn wrap_past(s: &[u8], at: usize, levels: usize) -> Option<usize>
    ensures { result ≡ wrap_past_of levels s.now at }
{
    let e = calm_past(s, text_past(s, at), levels)?;
    Some(text_past(s, e))
}

// What stands behind an inner that ends at `end`: a flag, and a chain where it is 1.
#[cycle(calm)]
#[tactic(auto, unfolding(crate::specs::flat::Past::tail_by))]
fn tail_past(s: &[u8], end: usize, levels: usize) -> Option<usize>
    ensures { result ≡ tail_past_of levels s.now end }
{
    let a = past(s, end, 1);
    if byte(s, end) == MORE {
        return calm_past(s, a, levels);
    }
    Some(a)
}

// A field of a body's root.
#[tactic(auto, unfolding(crate::specs::flat::Past::field_by))]
fn field_past(s: &[u8], at: usize) -> Option<usize>
    ensures { result ≡ field_past_of s.now at }
{
    let a = name_past(s, past(s, at, 1));
    if byte(s, at) == CONST {
        return Some(text_past(s, a));
    }
    calm_past(s, a, 63)
}

// A count, and as many fields.
#[tactic(auto, using(crate::proofs::flat::Level::next, crate::proofs::flat::Level::stop, crate::proofs::flat::Level::done), unfolding(crate::specs::flat::Past::many))]
fn fields_past(s: &[u8], at: usize) -> Option<usize>
    ensures { result ≡ fields_past_of s.now at }
{
    let mut here = past(s, at, 2);
    for _ in 0..number(s, at) {
        here = field_past(s, here)?;
    }
    Some(here)
}

// A selector, the cases' kind, a count, and as many cases.
#[tactic(auto, using(crate::proofs::flat::Level::next, crate::proofs::flat::Level::stop, crate::proofs::flat::Level::done), unfolding(crate::specs::flat::Past::many, crate::specs::flat::Past::case_by, crate::specs::flat::Past::choice_by))]
fn choice_past(s: &[u8], at: usize) -> Option<usize>
    ensures { result ≡ choice_past_of s.now at }
{
    let a = selector_past(s, at);
    let kind = byte(s, a);
    let b = past(s, a, 1);
    let mut here = past(s, b, 2);
    for _ in 0..number(s, b) {
        here = calm_past(s, label_past(s, here, kind), 63)?;
    }
    Some(here)
}

// The inner at a body's root: it may be a struct, choice, enum or bits itself.
#[tactic(auto, unfolding(crate::specs::flat::Past::root_by))]
fn root_past(s: &[u8], at: usize) -> Option<usize>
    ensures { result ≡ root_past_of s.now at }
{
    let a = past(s, at, 1);
    match byte(s, at) {
        BITS | ENUM => Some(text_past(s, a)),
        STRUCT => fields_past(s, a),
        CHOICE => choice_past(s, a),
        _ => inner_past(s, at, 63),
    }
}

// Where the body at a place ends, if it is flat.
#[tactic(auto, unfolding(crate::specs::flat::Past::body_past_of))]
fn body_past(s: &[u8], at: usize) -> Option<usize>
    ensures { result ≡ body_past_of s.now at }
{
    let e = root_past(s, at)?;
    tail_past(s, e, 63)
}

// The format at a place: its body, behind its name and its parameters. `params_past` marks calls; none are wanted here, so a row of one is lent.
fn format_flat(s: &[u8], at: usize) -> bool
    ensures { FormatTested s.now at flat 8192 result }
{
    let mut none = [0u16; 1];
    let params = name_past(s, at);
    let body = params_past(s, params, &mut none);
    body_past(s, body).is_some()
}

// The definition at a place: only formats have a body.
#[tactic(auto, using(walker::proofs::bodies::Tested::definition_other, walker::proofs::bodies::Tested::definition_format))]
fn definition_flat(s: &[u8], kind: u8, at: usize) -> bool
    ensures { DefinitionTested s.now kind at flat 8192 result }
{
    kind != FORMAT || format_flat(s, at)
}

// Whether in a book no struct, choice, enum or bits stands below the root of a body, macro arguments aside. A loop: `all` asks that the iterator is
// finite and the closure callable on all that is left, which is longer to say.
pub(crate) fn is_flat(s: &[u8]) -> bool
    ensures { Told s.now result }
{
    for d in each_definition(s) {
        if !definition_flat(s, d.kind, d.at) {
            return false;
        }
    }
    true
}
