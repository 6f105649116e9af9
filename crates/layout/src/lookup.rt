// A name is found by where it stands, and handed back as a part of the slice that holds it: the names of the source stand in the book,
// the generated ones in the work area.
ghost use Rattle.std.specs.Prelude.{◌≡◌};
ghost use Rattle.definition.specs.Names.{eq_name};
ghost use Rattle.layout.specs.lookup.Name.{name_at, name_of, place_of};

// Where a name's length byte stands: in the book, or among the generated names of the work area.
#[derive(Clone, Copy)]
pub enum Place {
    Source { at: usize },
    Made { at: usize },
}

// A place in 16 bits, as a table keeps it: places in the book are below 32,768, and those among the generated names follow from there.
impl From<u16> for Place {
    ghost from_gives = { λ code place. place ≡ place_of code };

    #[tactic(auto, unfolding(crate::specs::lookup::Name::place_of))]
    fn from(code: u16) -> Place {
        if code < 32768 {
            Place::Source { at: code as usize }
        } else {
            Place::Made {
                at: (code - 32768) as usize,
            }
        }
    }
}

// The name whose length byte stands at a place, as far as the slice reaches.
pub fn name_at(s: &[u8], at: usize) -> &[u8]
    ensures { result.now ≡ name_at s.now at }
{
    match s.get(at) {
        Some(&n) => {
            let rest = &s[at + 1..];
            &rest[..(n as usize).min(rest.len())]
        }
        None => &s[..0],
    }
}

// A name's bytes: a part of the book, or of the generated names.
#[tactic(auto, unfolding(crate::specs::lookup::Name::name_of))]
pub fn name_of<'a>(book: &'a [u8], made: &'a [u8], place: Place) -> &'a [u8]
    ensures { result.now ≡ name_of place book.now made.now }
{
    match place {
        Place::Source { at } => name_at(book, at),
        Place::Made { at } => name_at(made, at),
    }
}

// "Identifiers are equal when their names are." It is `==`, under the name by which the definition's `eq_name` is stated of it.
pub fn same_name(a: &[u8], b: &[u8]) -> bool
    ensures { result ≡ eq_name a.now b.now }
{
    a == b
}
