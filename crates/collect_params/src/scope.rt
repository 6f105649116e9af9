// The walk that collects names: where it stands and which labels are in force there, and its single steps.
ghost use Rattle.std.specs.Prelude.{◌≡◌};
ghost use Rattle.collect_params.specs.scope.Steps.{moved, counted, unbound, bind_by};

use crate::labels::bind_label;

// Where the walk stands: its place, how many uses are recorded and how many labels bound, and whether a macro call was met. That is a flag, and
// no Result, since the walk goes on behind such a call: a chain on Enum, say, forgets what it met.
#[derive(Clone, Copy)]
pub(crate) struct Walk {
    pub at: usize,
    pub n: usize,
    pub b: usize,
    pub leftover: bool,
}

impl Walk {
    // The same walk at another place.
    pub(crate) fn moved(self, at: usize) -> Walk
        ensures { result ≡ moved self at }
    {
        Walk { at, ..self }
    }

    // At another place and with another count of uses: as walker's `silent`, on another struct.
    pub(crate) fn counted(self, at: usize, n: usize) -> Walk
        ensures { result ≡ counted self at n }
    {
        Walk { at, n, ..self }
    }

    // With the labels that were bound at w.
    pub(crate) fn unbound(self, w: Walk) -> Walk
        ensures { result ≡ unbound w self }
    {
        Walk { b: w.b, ..self }
    }

    // The label whose length byte stands at a place is bound from here on.
    #[tactic(auto, unfolding(crate::specs::scope::Steps::bind_by))]
    pub(crate) fn bind(self, s: &[u8], at: usize, bound: &mut [u32]) -> Walk
        ensures { (result ≡ (bind_by s.now at self bound.old).0) × (bound.new ≡ (bind_by s.now at self bound.old).1) }
    {
        let b = bind_label(s, at, bound, self.b);
        Walk { b, ..self }
    }
}
