// Reading a combinator: codes 3, 4 and 5, each with the place of the item at fault. Document 01, "The definition book".
ghost use Rattle.definition.specs.Read.{combinator as combinator_of, arg, items as items_of, fields as fields_of, cases as cases_of, inners, len, selector as selector_of, label as label_of, is_struct, is_wrap, is_choice, is_array, is_macro_invocation, is_invocation, Reader};
ghost use Rattle.definition.specs.Tree.{Combinator, Inner};
ghost use Rattle.read_book.specs.cursor.Ends.{Walks};
ghost use Rattle.read_book.specs.name_list.Rows.{counted, Leads};
ghost use Rattle.read_book.specs.combinator.Tags.{tag_of, case_kind_of, items_at};

use crate::cursor::{Cursor, Fault};
use crate::name_list::{names, row};
use layout::flags::MORE;
use layout::kinds::{ARRAYS, CONST, ENUMS, ORDINARY};
use layout::tags::{ARRAY, BYTES, CHOICE, INVOCATION, MACRO_INVOCATION, OPTION, STRUCT, VEC, WRAP};
use what_comes_back::Code::TooDeep;

// The selector of a choice: none, or a name.
fn selector(s: &[u8], c: Cursor) -> Result<Cursor, Fault>
    ensures { Walks s.now c.at result selector_of }
{
    let (flag, d) = c.among(s, 0, 1)?;
    if flag != MORE {
        return Ok(d);
    }
    d.name(s, true)
}

// What stands before a case's combinator: a label in Enums, else a text.
fn label(s: &[u8], c: Cursor, kind: u8) -> Result<Cursor, Fault>
    ensures { Walks s.now c.at result (label_of (case_kind_of kind)) }
{
    if kind == ENUMS {
        return c.name(s, false);
    }
    c.text(s)
}

// A length: root names and a text.
fn length_past(s: &[u8], c: Cursor) -> Result<Cursor, Fault>
    ensures { Walks s.now c.at result len }
{
    let d = names(s, c, false)?;
    d.text(s)
}

// A call: a name and arguments.
fn invocation(s: &[u8], c: Cursor) -> Result<Cursor, Fault>
    ensures { (c' : Reader Combinator) (a : Reader Inner) → Walks s.now c.at result (items_of c' a is_invocation) }
{
    let d = c.name(s, false)?;
    names(s, d, true)
}

// A combinator, with so many levels left: an inner, and a chain or none.
#[cycle(combinator)]
pub(crate) fn combinator(s: &[u8], c: Cursor, levels: usize) -> Result<Cursor, Fault>
    ensures { Walks s.now c.at result (combinator_of levels) }
{
    let d = inner(s, c, levels)?;
    let (flag, e) = d.among(s, 0, 1)?;
    if flag != MORE {
        return Ok(e);
    }
    combinator(s, e, levels - 1)
}

// A tag and its items: an unknown tag is 3 before its level is tested.
#[cycle(combinator)]
pub(crate) fn inner(s: &[u8], c: Cursor, levels: usize) -> Result<Cursor, Fault>
    ensures { Walks s.now c.at result (arg levels) }
{
    let at = c.at;
    let (tag, d) = c.among(s, 1, 16)?;
    if levels == 0 {
        return Err(Fault { at, code: TooDeep });
    }
    items(s, d, tag, levels - 1)
}

// What stands behind a tag; `levels` are those left for what is inside. Tags and kinds are the book's bytes, which `among` tests: an enum would
// test them once more. VEC and OPTION have an arm each: with one for both, the last arm did not prove.
#[cycle(combinator)]
fn items(s: &[u8], c: Cursor, tag: u8, levels: usize) -> Result<Cursor, Fault>
    ensures { Walks s.now c.at result (items_at levels (tag_of tag)) }
{
    match tag {
        STRUCT => fields(s, c, levels),
        WRAP => wrap(s, c, levels),
        CHOICE => choice(s, c, levels),
        VEC => combinator(s, c, levels),
        ARRAY => array(s, c, levels),
        BYTES => length_past(s, c),
        OPTION => combinator(s, c, levels),
        INVOCATION => invocation(s, c),
        MACRO_INVOCATION => macro_invocation(s, c, levels),
        _ => c.text(s),
    }
}

#[cycle(combinator)]
fn field(s: &[u8], c: Cursor, levels: usize) -> Result<Cursor, Fault>
    ensures { Leads s.now c.at result (fields_of (combinator_of levels)) }
{
    let (kind, d) = c.among(s, ORDINARY, CONST)?;
    let e = d.name(s, false)?;
    if kind == CONST {
        return e.text(s);
    }
    combinator(s, e, levels)
}

// A struct: a count, and as many fields.
#[cycle(combinator)]
fn fields(s: &[u8], c: Cursor, levels: usize) -> Result<Cursor, Fault>
    ensures { Walks s.now c.at result (items_at levels is_struct) }
{
    let item = |here: Cursor| -> Result<Cursor, Fault>
        ensures { Leads s.entry.now here.at result (fields_of (combinator_of levels)) }
    { field(s, here, levels) };
    row(s, c, item)
}

#[cycle(combinator)]
fn wrap(s: &[u8], c: Cursor, levels: usize) -> Result<Cursor, Fault>
    ensures { Walks s.now c.at result (items_at levels is_wrap) }
{
    let d = c.text(s)?;
    let e = combinator(s, d, levels)?;
    e.text(s)
}

#[cycle(combinator)]
fn case(s: &[u8], c: Cursor, kind: u8, levels: usize) -> Result<Cursor, Fault>
    ensures { Leads s.now c.at result (cases_of (combinator_of levels) (case_kind_of kind)) }
{
    let d = label(s, c, kind)?;
    combinator(s, d, levels)
}

// A count, and as many cases.
#[cycle(combinator)]
fn cases(s: &[u8], c: Cursor, kind: u8, levels: usize) -> Result<Cursor, Fault>
    ensures { Walks s.now c.at result (counted (cases_of (combinator_of levels) (case_kind_of kind))) }
{
    let item = |here: Cursor| -> Result<Cursor, Fault>
        ensures { Leads s.entry.now here.at result (cases_of (combinator_of levels) (case_kind_of kind)) }
    { case(s, here, kind, levels) };
    row(s, c, item)
}

#[cycle(combinator)]
fn choice(s: &[u8], c: Cursor, levels: usize) -> Result<Cursor, Fault>
    ensures { Walks s.now c.at result (items_at levels is_choice) }
{
    let d = selector(s, c)?;
    let (kind, e) = d.among(s, ENUMS, ARRAYS)?;
    cases(s, e, kind, levels)
}

#[cycle(combinator)]
fn array(s: &[u8], c: Cursor, levels: usize) -> Result<Cursor, Fault>
    ensures { Walks s.now c.at result (items_at levels is_array) }
{
    let d = length_past(s, c)?;
    combinator(s, d, levels)
}

// A count, and as many inners.
#[cycle(combinator)]
fn arguments(s: &[u8], c: Cursor, levels: usize) -> Result<Cursor, Fault>
    ensures { Walks s.now c.at result (counted (inners (arg levels))) }
{
    let item = |here: Cursor| -> Result<Cursor, Fault>
        ensures { Walks s.entry.now here.at result (arg levels) }
    { inner(s, here, levels) };
    row(s, c, item)
}

// A macro call: a name and arguments.
#[cycle(combinator)]
fn macro_invocation(s: &[u8], c: Cursor, levels: usize) -> Result<Cursor, Fault>
    ensures { Walks s.now c.at result (items_at levels is_macro_invocation) }
{
    let d = c.name(s, false)?;
    arguments(s, d, levels)
}
