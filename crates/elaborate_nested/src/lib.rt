// The nested mode of document 02 b: the pass of document 01, more passes with the same macros, then the lifts.
#![tactic(auto)]

ghost use Rattle.std.specs.Prelude.{◌≡◌, length};
ghost use Rattle.definition.specs.Answer.{fault_at, zeroed};
ghost use Rattle.nested.specs.Nested.{attempt_nested_of, output_nested};
ghost use Rattle.what_comes_back.specs.Elaborates.{elaborated_as, Reports};
ghost use Rattle.elaborate_nested.specs.OpensNested.{OpensNested};

use buffer::zeroing::zero_range;
use expand_nested::passes::expand_again;
use lift_book::room::lift_expanded;
use open_book::opened::open_book;
use what_comes_back::{Elaborated, Refusal};

// Codes 1 to 6 and 12. The book after the last pass fills the output's first bytes: its length.
fn open_nested(book: &[u8], work: &mut [u8], out: &mut [u8]) -> Result<usize, Refusal>
    requires { length out.old ≡ 16384 }
    ensures { OpensNested book.now (length work.old) out.new result }
{
    let len = open_book(book, work, out)?;
    let mut next = [0u8; 16384];
    let last = expand_again(book, out, len, &mut work[..32768], &mut next)?;
    Ok(last)
}

// The elaboration, with the work area left as it is then.
fn attempt_nested(book: &[u8], out: &mut [u8], work: &mut [u8]) -> Result<Elaborated, Refusal>
    ensures { Reports (fault_at book.now (length work.old)) (attempt_nested_of book.now (length out.old) (length work.old)) out.old out.new result }
{
    let mut expanded = [0u8; 16384];
    let len = open_nested(book, work, &mut expanded)?;
    lift_expanded(&expanded[..len], work, out)
}

// The output as before on a refusal, and all of the work area zero afterwards, as in document 01. The five lines are `elaborate`'s too: see there.
#[tactic(auto, unfolding(nested::specs::Nested::output_nested))]
pub fn elaborate_nested(book: &[u8], out: &mut [u8], work: &mut [u8]) -> Result<Elaborated, Refusal>
    ensures value { result ≡ elaborated_as (fault_at book.now (length work.old)) (attempt_nested_of book.now (length out.old) (length work.old)) }
    ensures out_after { out.new ≡ output_nested book.now out.old (length work.old) }
    ensures work_after { work.new ≡ zeroed work.old }
{
    let answer = attempt_nested(book, out, work);
    let end = work.len();
    zero_range(work, 0, end);
    answer
}
