// The lines of an answer, written into a buffer.
ghost use Rattle.listing_lines.specs.answers.Prints.{Prints};

use crate::printed::put_result;
use crate::refusal::put_refusal;
use buffer::parts::first;
use what_comes_back::{Elaborated, Refusal};

// The lines of an answer, with the result at the start of the output.
#[tactic(auto, using(crate::proofs::answers::Prints::refused_prints, crate::proofs::answers::Prints::done_prints))]
pub(crate) fn put_answer(answer: Result<Elaborated, Refusal>, out: &[u8], text: &mut [u8]) -> usize
    ensures { Prints answer out.now text.old text.new result }
{
    match answer {
        Err(why) => put_refusal(why, text),
        Ok(e) => put_result(
            first(out, usize::from(e.length)),
            e.definitions,
            e.lifted,
            text,
        ),
    }
}
