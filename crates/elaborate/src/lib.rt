// The whole elaboration: what it answers, what it writes and what it leaves in the work area, for every input.
#![tactic(auto)]

ghost use Rattle.std.specs.Prelude.{◌≡◌, length};
ghost use Rattle.definition.specs.Answer.{attempt, fault_at, output, zeroed};
ghost use Rattle.open_book.specs.begin.Begins.{Sound};
ghost use Rattle.what_comes_back.specs.Elaborates.{elaborated_as, Reports};

use buffer::zeroing::zero_range;
use lift_book::room::{lift_book, lift_expanded};
use open_book::begin::{Begun, begin};
use open_book::opened::expand_book;
use what_comes_back::{Elaborated, Refusal};

// The elaboration of a book with macros, which is expanded into an array of its own, with the work area left as it is then.
fn expand_fully(book: &[u8], out: &mut [u8], work: &mut [u8]) -> Result<Elaborated, Refusal>
    requires { Sound book.now (length work.old) }
    ensures { Reports (fault_at book.now (length work.old)) (attempt book.now (length out.old) (length work.old)) out.old out.new result }
{
    let mut expanded = [0u8; 16384];
    let len = expand_book(book, work, &mut expanded)?;
    lift_expanded(&expanded[..len], work, out)
}

// The same, for a short book in an array that most of these need; what does not fit into it is expanded once more. So a refusal means another
// thing with each length, and the two are no one function of it. Two calls of `expand_fully` keep its frame out of a short book's.
fn attempt_expanded(book: &[u8], out: &mut [u8], work: &mut [u8]) -> Result<Elaborated, Refusal>
    requires { Sound book.now (length work.old) }
    ensures { Reports (fault_at book.now (length work.old)) (attempt book.now (length out.old) (length work.old)) out.old out.new result }
{
    if 512 < book.len() {
        return expand_fully(book, out, work);
    }
    let mut expanded = [0u8; 2048];
    match expand_book(book, work, &mut expanded) {
        Ok(len) => lift_expanded(&expanded[..len], work, out),
        Err(_) => expand_fully(book, out, work),
    }
}

// The elaboration of any book.
fn attempt(book: &[u8], out: &mut [u8], work: &mut [u8]) -> Result<Elaborated, Refusal>
    ensures { Reports (fault_at book.now (length work.old)) (attempt book.now (length out.old) (length work.old)) out.old out.new result }
{
    match begin(book, work.len())? {
        Begun::Plain => lift_book(book, work, out),
        Begun::Macros => attempt_expanded(book, out, work),
    }
}

// "On 0 the result fills the output's first bytes and the rest is as before. On a refusal .. the output is as before. The work area, short or
// not, is all zero afterwards in each case." `elaborate_nested` has the same five lines: one function over a closure would need the closure's
// promise on output and work area as a clause, which is longer than they are.
#[tactic(auto, unfolding(definition::specs::Answer::output))]
pub fn elaborate(book: &[u8], out: &mut [u8], work: &mut [u8]) -> Result<Elaborated, Refusal>
    ensures value { result ≡ elaborated_as (fault_at book.now (length work.old)) (attempt book.now (length out.old) (length work.old)) }
    ensures out_after { out.new ≡ output book.now out.old (length work.old) }
    ensures work_after { work.new ≡ zeroed work.old }
{
    let answer = attempt(book, out, work);
    let end = work.len();
    zero_range(work, 0, end);
    answer
}
