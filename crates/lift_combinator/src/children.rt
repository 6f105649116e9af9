// What a frame does next: the child that it walks, and the base of its name.
ghost use Rattle.std.specs.Prelude.{◌≡◌};
ghost use Rattle.lift_combinator.specs.children.Next.{next_field_of, next_one_of, next_of};
ghost use Rattle.lift_combinator.specs.children.Steps.{StepAt};

use crate::frames::{Frame, Kind};
use generated_name::child_name::{
    child_generated_name, choice_generated_name, item_generated_name, wrap_generated_name,
};
use layout::items::{byte, length_past, name_past, past, text_past};
use layout::kinds::CONST;
use layout::lookup::name_at;
use layout::tags;

// What a frame does next: nothing, pass a Const field up to a place, or walk a child at a place: its chain, or a child that is named by a
// label, by its number, as a Wrap's or as an item.
#[derive(Clone, Copy)]
pub enum Next {
    Done,
    Pass(usize),
    Chain(usize),
    Label(usize, usize),
    Case(usize),
    Anon(usize),
    Item(usize),
}

// What a node does next: it is at its end, it passes a Const field, or it walks the child at a place, whose base has so many bytes in the path.
#[derive(Clone, Copy)]
pub enum Step {
    Done,
    Pass(usize),
    Child(usize, usize),
}

// The next of the fields.
#[tactic(auto, unfolding(crate::specs::children::Next::next_field_of))]
fn next_field(s: &[u8], here: usize) -> Next
    ensures { result ≡ next_field_of s.now here }
{
    let a = past(s, here, 1);
    let b = name_past(s, a);
    if byte(s, here) == CONST {
        return Next::Pass(text_past(s, b));
    }
    Next::Label(b, a)
}

// The child of a Wrap, Vec, Array or Option.
#[tactic(auto, unfolding(crate::specs::children::Next::next_one_of))]
fn next_one(s: &[u8], here: usize) -> Next
    ensures { result ≡ next_one_of s.now here }
{
    let a = past(s, here, 1);
    match byte(s, here) {
        tags::WRAP => Next::Anon(text_past(s, a)),
        tags::ARRAY => Next::Item(length_past(s, a)),
        _ => Next::Item(a),
    }
}

// What a frame does next: nothing, pass a Const field, or walk its chain or a child.
#[tactic(auto, unfolding(crate::specs::children::Next::next_of, crate::specs::children::Next::next_by))]
fn next_of(s: &[u8], f: Frame) -> Next
    ensures { result ≡ next_of s.now f }
{
    if f.chained {
        return Next::Chain(past(s, f.end, 1));
    }
    if f.left == 0 {
        return Next::Done;
    }
    match f.kind {
        Kind::Nothing => Next::Done,
        Kind::Fields => next_field(s, f.here),
        Kind::Enums => Next::Label(name_past(s, f.here), f.here),
        Kind::Ints | Kind::Arrays => Next::Case(text_past(s, f.here)),
        Kind::One => next_one(s, f.here),
    }
}

// What a frame does next, with the base of its child written into the path.
#[tactic(auto, unfolding(crate::specs::children::Steps::StepAt))]
pub fn next_step(s: &[u8], f: Frame, path: &mut [u8]) -> Step
    ensures { StepAt s.now f path.old path.new (next_of s.now f) result }
{
    match next_of(s, f) {
        Next::Done => Step::Done,
        Next::Pass(e) => Step::Pass(e),
        Next::Chain(at) => Step::Child(at, f.len),
        Next::Label(at, a) => {
            let n = child_generated_name(name_at(s, a), path, f.len);
            Step::Child(at, n)
        }
        Next::Case(at) => {
            let n = choice_generated_name(f.child, path, f.len);
            Step::Child(at, n)
        }
        Next::Anon(at) => {
            let n = wrap_generated_name(path, f.len);
            Step::Child(at, n)
        }
        Next::Item(at) => {
            let n = item_generated_name(path, f.len);
            Step::Child(at, n)
        }
    }
}
