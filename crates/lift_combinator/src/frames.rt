// Frames: a node on the way, by places in the expanded book. Where its combinator ends, where its children begin, and its frame.
ghost use Rattle.std.specs.Prelude.{◌≡◌, ◌≤◌, length};
ghost use Rattle.walker.specs.ends.Ends.{inner_end_of, Right};
ghost use Rattle.lift_combinator.specs.frames.Frames.{combinator_end_of, combinator_past_of, cases_begin, begin_at, Standing, Follows, frame_at, Narrow, narrowed, widened, kind_numbered};

use layout::flags::MORE;
use layout::items::{byte, number, past, selector_past};
use layout::kinds::{ENUMS, INTS};
use layout::tags;
use walker::ends::end_of;

// The sort of the children that are left: none, fields, cases of Enums, Ints or Arrays, or the one of a Wrap, Vec, Array or Option.
#[derive(Clone, Copy, Debug, PartialEq, Eq)]
pub enum Kind {
    Nothing,
    Fields,
    Enums,
    Ints,
    Arrays,
    One,
}

// The sort by its number, as a caller may have it: 0 is none, 1 fields, 2 to 4 cases of Enums, Ints and Arrays, 5 the one child. Any other number
// stands for cases that are numbered, as Arrays are.
impl From<u8> for Kind {
    ghost from_gives = { λ n k. k ≡ kind_numbered n };

    #[tactic(auto, unfolding(crate::specs::frames::Frames::kind_numbered))]
    fn from(number: u8) -> Kind {
        match number {
            0 => Kind::Nothing,
            1 => Kind::Fields,
            2 => Kind::Enums,
            3 => Kind::Ints,
            5 => Kind::One,
            _ => Kind::Arrays,
        }
    }
}

// A node on the way: its combinator from `place` up to `last`; its inner's rest from `here` up to `end`; how many children are left, their
// sort, and the number of the next; the name's length in the path; how many binders are in force; what the inner takes up to `here` after
// lifting; whether its chain is still to be walked, and what it takes after lifting; one more than the number of the lift if it is lifted, and the size of the call.
// `own` and `chained` have their numbers beside them (fixed memory): 64 frames are cleared for each body, and an Option of 16 bits takes 32.
// `chained` is a state: `link` is read in both.
#[derive(Clone, Copy)]
pub struct Frame<N = usize> {
    pub place: N,
    pub last: N,
    pub here: N,
    pub end: N,
    pub left: N,
    pub child: N,
    pub len: N,
    pub bound: N,
    pub done: N,
    pub link: N,
    pub own: N,
    pub call: N,
    pub kind: Kind,
    pub chained: bool,
}

// A frame that waits while a child of its node is walked: the same, with numbers of 16 bits.
pub type Waiting = Frame<u16>;

impl Frame {
    // The frame as it waits. No TryFrom, since this can't fail (what may not change: `Narrow` is asked, and nothing is tested).
    #[tactic(auto, unfolding(crate::specs::frames::Frames::narrowed))]
    pub fn waiting(self) -> Waiting
        requires { Narrow self }
        ensures { result ≡ narrowed self }
    {
        Frame {
            place: self.place as u16,
            last: self.last as u16,
            here: self.here as u16,
            end: self.end as u16,
            left: self.left as u16,
            child: self.child as u16,
            len: self.len as u16,
            bound: self.bound as u16,
            done: self.done as u16,
            link: self.link as u16,
            own: self.own as u16,
            call: self.call as u16,
            kind: self.kind,
            chained: self.chained,
        }
    }
}

// The frame that waited.
impl From<Waiting> for Frame {
    ghost from_gives = { λ w f. f ≡ widened w };

    #[tactic(auto, unfolding(crate::specs::frames::Frames::widened))]
    fn from(w: Waiting) -> Frame {
        Frame {
            place: usize::from(w.place),
            last: usize::from(w.last),
            here: usize::from(w.here),
            end: usize::from(w.end),
            left: usize::from(w.left),
            child: usize::from(w.child),
            len: usize::from(w.len),
            bound: usize::from(w.bound),
            done: usize::from(w.done),
            link: usize::from(w.link),
            own: usize::from(w.own),
            call: usize::from(w.call),
            kind: w.kind,
            chained: w.chained,
        }
    }
}

// Where the children of an inner begin, their sort and how many there are.
#[derive(Clone, Copy)]
struct Begin {
    here: usize,
    kind: Kind,
    left: usize,
}

// Where the combinator at a place ends, with so many levels left: behind its last chain.
fn combinator_end(s: &[u8], ends: &[u16], at: usize, levels: usize) -> usize
    requires { Right s.now ends.now × Standing s.now at × (length s.now ≤ 65535) }
    ensures { result ≡ combinator_end_of levels s.now at }
{
    let mut here = at;
    for _ in 0..levels {
        let e = end_of(s, ends, here);
        here = past(s, e, 1);
        if byte(s, e) != MORE {
            return here;
        }
    }
    here
}

// Where a combinator ends, from where its inner ends: behind its last chain.
#[tactic(auto, unfolding(crate::specs::frames::Frames::combinator_past_of))]
pub fn combinator_past(s: &[u8], ends: &[u16], end: usize) -> usize
    requires { Right s.now ends.now × Follows s.now end }
    ensures { result ≡ combinator_past_of s.now end }
{
    let a = past(s, end, 1);
    if byte(s, end) == MORE {
        return combinator_end(s, ends, a, 63);
    }
    a
}

// The children of a Choice whose selector stands at a place.
#[tactic(auto, unfolding(crate::specs::frames::Frames::cases_begin))]
fn cases_of(s: &[u8], at: usize) -> Begin
    ensures { result ≡ cases_begin s.now at }
{
    let a = selector_past(s, at);
    let b = past(s, a, 1);
    let kind = match byte(s, a) {
        ENUMS => Kind::Enums,
        INTS => Kind::Ints,
        _ => Kind::Arrays,
    };
    Begin {
        here: past(s, b, 2),
        kind,
        left: usize::from(number(s, b)),
    }
}

// The children of the inner at a place.
#[tactic(auto, unfolding(crate::specs::frames::Frames::begin_at))]
fn children_of(s: &[u8], at: usize) -> Begin
    ensures { result ≡ begin_at s.now at }
{
    let a = past(s, at, 1);
    match byte(s, at) {
        tags::STRUCT => Begin {
            here: past(s, a, 2),
            kind: Kind::Fields,
            left: usize::from(number(s, a)),
        },
        tags::CHOICE => cases_of(s, a),
        tags::WRAP | tags::VEC | tags::ARRAY | tags::OPTION => Begin {
            here: at,
            kind: Kind::One,
            left: 1,
        },
        _ => Begin {
            here: at,
            kind: Kind::Nothing,
            left: 0,
        },
    }
}

// The frame of the node whose combinator stands from `at` up to `last`, its inner up to `end`; `own` and `call` are 0 where it is not lifted, as
// `frame_at` takes them.
#[tactic(auto, unfolding(crate::specs::frames::Frames::frame_at))]
pub fn open_node(
    s: &[u8],
    at: usize,
    end: usize,
    last: usize,
    len: usize,
    bound: usize,
    own: usize,
    call: usize,
) -> Frame
    requires { end ≡ inner_end_of s.now at }
    ensures { result ≡ frame_at s.now at last len bound own call }
{
    let Begin { here, kind, left } = children_of(s, at);
    Frame {
        place: at,
        last,
        here,
        end,
        left,
        child: 0,
        len,
        bound,
        done: here.saturating_sub(at),
        link: 0,
        own,
        call,
        kind,
        chained: byte(s, end) == MORE,
    }
}
