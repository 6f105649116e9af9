// Going over validated bytes by position. Every function is total: past the end a byte is 0, and no place lies past the end.
ghost use Rattle.std.specs.Prelude.{◌≡◌};
ghost use Rattle.layout.specs.items.At.{byte_at, past_at, number_at, name_past_of, text_past_of, names_past_of, list_past_of, length_past_of, selector_past_of, label_past_of, stands_on_of};

use crate::flags::MORE;
use crate::kinds::ENUMS;
use crate::tags::{BYTES, TAIL};

// The byte at a place. Not by `buffer::table::item`: a call of it is as long as this, and the crate needs nothing else of `buffer`.
#[tactic(auto, unfolding(crate::specs::items::At::byte_at))]
pub fn byte(s: &[u8], at: usize) -> u8
    ensures { result ≡ byte_at s.now at }
{
    s.get(at).copied().unwrap_or(0)
}

// The place n bytes further.
#[tactic(auto, unfolding(crate::specs::items::At::past_at))]
pub fn past(s: &[u8], at: usize, n: usize) -> usize
    ensures { result ≡ past_at s.now at n }
{
    at.saturating_add(n).min(s.len())
}

// A number of two bytes, the lower first.
#[tactic(auto, unfolding(crate::specs::items::At::number_at))]
pub fn number(s: &[u8], at: usize) -> u16
    ensures { result ≡ number_at s.now at }
{
    let low = u16::from(byte(s, at));
    let high = u16::from(byte(s, past(s, at, 1)));
    low + 256 * high
}

// The place behind a name.
#[tactic(auto, unfolding(crate::specs::items::At::name_past_of))]
pub fn name_past(s: &[u8], at: usize) -> usize
    ensures { result ≡ name_past_of s.now at }
{
    past(s, past(s, at, 1), usize::from(byte(s, at)))
}

// The place behind a text.
#[tactic(auto, unfolding(crate::specs::items::At::text_past_of))]
pub fn text_past(s: &[u8], at: usize) -> usize
    ensures { result ≡ text_past_of s.now at }
{
    past(s, past(s, at, 2), usize::from(number(s, at)))
}

// The place behind so many names.
pub fn names_past(s: &[u8], at: usize, count: u16) -> usize
    ensures { result ≡ names_past_of s.now count at }
{
    let mut here = at;
    for _ in 0..count {
        here = name_past(s, here);
    }
    here
}

// The place behind a count and as many names.
#[tactic(auto, unfolding(crate::specs::items::At::list_past_of))]
pub fn list_past(s: &[u8], at: usize) -> usize
    ensures { result ≡ list_past_of s.now at }
{
    names_past(s, past(s, at, 2), number(s, at))
}

// The place behind a length: a count, as many names and a text.
#[tactic(auto, unfolding(crate::specs::items::At::length_past_of))]
pub fn length_past(s: &[u8], at: usize) -> usize
    ensures { result ≡ length_past_of s.now at }
{
    text_past(s, list_past(s, at))
}

// The place behind a choice's selector: byte 0, or 1 and a name.
#[tactic(auto, unfolding(crate::specs::items::At::selector_past_of))]
pub fn selector_past(s: &[u8], at: usize) -> usize
    ensures { result ≡ selector_past_of s.now at }
{
    let next = past(s, at, 1);
    if byte(s, at) == MORE {
        name_past(s, next)
    } else {
        next
    }
}

// The place behind what stands before a case's combinator: a label in Enums, else a text.
#[tactic(auto, unfolding(crate::specs::items::At::label_past_of))]
pub fn label_past(s: &[u8], at: usize, kind: u8) -> usize
    ensures { result ≡ label_past_of s.now at kind }
{
    if kind == ENUMS {
        name_past(s, at)
    } else {
        text_past(s, at)
    }
}

// Whether a chain may stand on an inner with this tag, and is collected there: Bytes or Tail.
#[tactic(auto, unfolding(crate::specs::items::At::stands_on_of))]
pub fn stands_on(tag: u8) -> bool
    ensures { result ≡ stands_on_of tag }
{
    matches!(tag, BYTES | TAIL)
}
