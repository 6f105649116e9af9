// Reading a definition, and a body judged alone: codes 3, 4 and 5, each with the place of the item at fault. Document 01, "The definition book".
ghost use Rattle.std.specs.Prelude.{◌≡◌};
ghost use Rattle.definition.specs.Read.{params as params_of, definition as definition_of};
ghost use Rattle.definition.specs.Tree.{is_format, is_constant, is_macro};
ghost use Rattle.read_book.specs.cursor.Ends.{Walks};
ghost use Rattle.read_book.specs.name_list.Rows.{counted, Leads};
ghost use Rattle.read_book.specs.body.Verdict.{of_kind, body_verdict};

use crate::combinator::{combinator, inner};
use crate::cursor::{Cursor, Fault};
use crate::name_list::{names, row};
use layout::kinds::{BYTE_ORDER, CONSTANT, FORMAT, MACRO};
use what_comes_back::Code::NotABook;

// A parameter of a format: a name and its type.
fn param(s: &[u8], c: Cursor) -> Result<Cursor, Fault>
    ensures { Leads s.now c.at result params_of }
{
    let d = c.name(s, false)?;
    inner(s, d, 64)
}

// A count, and as many parameters.
fn params(s: &[u8], c: Cursor) -> Result<Cursor, Fault>
    ensures { Walks s.now c.at result (counted params_of) }
{
    let item = |here: Cursor| -> Result<Cursor, Fault>
        ensures { Leads s.entry.now here.at result params_of }
    { param(s, here) };
    row(s, c, item)
}

fn format(s: &[u8], c: Cursor) -> Result<Cursor, Fault>
    ensures { Walks s.now c.at result (definition_of is_format) }
{
    let d = c.name(s, false)?;
    let e = params(s, d)?;
    combinator(s, e, 64)
}

fn constant(s: &[u8], c: Cursor) -> Result<Cursor, Fault>
    ensures { Walks s.now c.at result (definition_of is_constant) }
{
    let d = c.name(s, false)?;
    d.text(s)
}

// As `format` but for the middle step: a macro's parameters have no type.
fn macro_body(s: &[u8], c: Cursor) -> Result<Cursor, Fault>
    ensures { Walks s.now c.at result (definition_of is_macro) }
{
    let d = c.name(s, false)?;
    let e = names(s, d, false)?;
    combinator(s, e, 64)
}

// A definition of a kind, from the cursor on. The kind is a byte: the contents tested it, and an enum would test it once more.
fn definition(s: &[u8], c: Cursor, kind: u8) -> Result<Cursor, Fault>
    ensures { Walks s.now c.at result (of_kind kind) }
{
    match kind {
        FORMAT => format(s, c),
        CONSTANT => constant(s, c),
        BYTE_ORDER => c.text(s),
        MACRO => macro_body(s, c),
        _ => Err(Fault {
            at: c.at,
            code: NotABook,
        }),
    }
}

// One body alone: the bytes from a place up to another, read as a definition of a kind that fills them.
pub(crate) fn body(s: &[u8], kind: u8, from: usize, to: usize) -> Result<(), Fault>
    ensures { result ≡ body_verdict kind from to s.now }
{
    if s.len() < to || to < from {
        return Err(Fault {
            at: from,
            code: NotABook,
        });
    }
    let end = definition(&s[..to], Cursor { at: from }, kind)?;
    if end.at < to {
        return Err(Fault {
            at: end.at,
            code: NotABook,
        });
    }
    Ok(())
}
