// The premise test: what it answers and what it leaves in the work area, for every input.
ghost use Rattle.std.specs.Prelude.{◌≡◌, length};
ghost use Rattle.definition.specs.Answer.{fault_at, zeroed};
ghost use Rattle.definition.specs.Premise.{tested};
ghost use Rattle.what_comes_back.specs.Tells.{tested_as};

use crate::holds::holds;
use buffer::zeroing::zero_range;
use open_book::opened::open_book;
use what_comes_back::Refusal;

// The premise test, with the work area left as it is then.
fn test(book: &[u8], work: &mut [u8]) -> Result<bool, Refusal>
    ensures { result ≡ tested_as (fault_at book.now (length work.old)) (tested book.now (length work.old)) }
{
    let mut expanded = [0u8; 16384];
    let len = open_book(book, work, &mut expanded)?;
    Ok(holds(&expanded[..len]))
}

// "takes a book and a work area, gives 1 to 6 as above, else yes or no"; "The work area is all zero afterwards."
pub fn premise(book: &[u8], work: &mut [u8]) -> Result<bool, Refusal>
    ensures value { result ≡ tested_as (fault_at book.now (length work.old)) (tested book.now (length work.old)) }
    ensures work_after { work.new ≡ zeroed work.old }
{
    let answer = test(book, work);
    let end = work.len();
    zero_range(work, 0, end);
    answer
}
