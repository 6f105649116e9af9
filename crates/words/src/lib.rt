// The words that the program `listing` is started with.
#![tactic(auto)]

ghost use Rattle.std.specs.Prelude.{◌≡◌};
ghost use Rattle.words.specs.Mode.{mode_of};

// In which mode it lists: document 01's, or the nested one of document 02 b.
#[derive(Clone, Copy, Debug, PartialEq, Eq)]
pub enum Mode {
    Plain,
    Nested,
}

// The mode that so many words ask for, the program's own name the first of them; the second is given. Other words ask for none.
#[tactic(auto, using(crate::proofs::Modes::few, crate::proofs::Modes::many, crate::proofs::Modes::asked, crate::proofs::Modes::other))]
pub fn mode_of(count: usize, word: &[u8]) -> Option<Mode>
    ensures { result ≡ mode_of count word.now }
{
    match count {
        0 | 1 => Some(Mode::Plain),
        2 if word == b"--nested".as_slice() => Some(Mode::Nested),
        _ => None,
    }
}
