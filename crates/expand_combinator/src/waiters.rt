// The frames that wait: one for each level above the node that is walked, the outermost first.
ghost use Rattle.std.specs.Prelude.{◌≡◌, ◌+◌, ◌-◌, ◌≤◌, ◌<◌, length, set, MatchOption};
ghost use Rattle.lift_combinator.specs.frames.Frames.{Narrow};
ghost use Rattle.expand_combinator.specs.waiters.Waiters.{waiter};

use lift_combinator::frames::{Frame, Kind, Waiting};

// What stands where no frame waits.
const NONE: Waiting = Frame {
    place: 0,
    last: 0,
    here: 0,
    end: 0,
    left: 0,
    child: 0,
    len: 0,
    bound: 0,
    done: 0,
    link: 0,
    own: 0,
    call: 0,
    kind: Kind::Nothing,
    chained: false,
};

// The first `depth` of these wait: document 01 asks for an array of frame structs by value.
#[derive(Drop)]
pub(crate) struct Waiters {
    frames: [Waiting; 64],
    depth: usize,
}

impl Waiters {
    // None waits.
    pub(crate) fn none() -> Waiters
        ensures { (length result.frames ≡ 64) × (result.depth ≡ 0) }
    {
        Waiters {
            frames: [NONE; 64],
            depth: 0,
        }
    }

    // A frame waits from here on.
    #[tactic(auto, unfolding(lift_combinator::specs::frames::Frames::narrowed))]
    pub(crate) fn push(&mut self, f: Frame)
        requires { (self.old.depth ≤ 63) × Narrow f }
        ensures { (self.new.frames ≡ set self.old.frames self.old.depth f) × (self.new.depth ≡ self.old.depth + 1) }
    {
        self.frames[self.depth] = f.waiting();
        self.depth += 1;
    }

    // The innermost waits no longer.
    #[tactic(auto, unfolding(lift_combinator::specs::frames::Frames::widened))]
    pub(crate) fn pop(&mut self) -> Option<Frame>
        requires { self.old.depth ≤ 64 }
        ensures kept { self.new.frames ≡ self.old.frames }
        ensures last { MatchOption result (self.old.depth ≡ 0) (λ f. (0 < self.old.depth) × (f ≡ waiter self.old.frames self.old.depth) × (self.new.depth ≡ self.old.depth - 1)) }
    {
        if self.depth == 0 {
            return None;
        }
        self.depth -= 1;
        Some(Frame::from(self.frames[self.depth]))
    }
}
