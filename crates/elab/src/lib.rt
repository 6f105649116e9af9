// The entry points for callers in other languages, which get the answers in numbers.
#![tactic(auto)]

ghost use Rattle.std.specs.Prelude.{◌≡◌, length};
ghost use Rattle.definition.specs.Answer.{answer, output, zeroed};
ghost use Rattle.definition.specs.Premise.{premise};
ghost use Rattle.nested.specs.Nested.{answer_nested, output_nested};

use elaborate::elaborate;
use elaborate_nested::elaborate_nested;
use premise::test::premise;
use what_comes_back::{Numbers, Report};

// The premise test.
#[unsafe(no_mangle)]
pub extern "C" fn samulsto_premise(book: &[u8], work: &mut [u8]) -> Numbers
    ensures code_value { (result.code ≡ (premise book.now (length work.old)).code) × (result.holds ≡ (premise book.now (length work.old)).holds) × (result.at ≡ (premise book.now (length work.old)).at) }
    ensures work_after { work.new ≡ zeroed work.old }
{
    premise(book, work).into()
}

// `elaborate` of document 01.
#[unsafe(no_mangle)]
pub extern "C" fn samulsto_elaborate(book: &[u8], out: &mut [u8], work: &mut [u8]) -> Report
    ensures code_value { (result.code ≡ (answer book.now (length out.old) (length work.old)).code) × (result.length ≡ (answer book.now (length out.old) (length work.old)).size) × (result.definitions ≡ (answer book.now (length out.old) (length work.old)).definitions) × (result.lifted ≡ (answer book.now (length out.old) (length work.old)).lifts) × (result.at ≡ (answer book.now (length out.old) (length work.old)).at) }
    ensures out_after { out.new ≡ output book.now out.old (length work.old) }
    ensures work_after { work.new ≡ zeroed work.old }
{
    elaborate(book, out, work).into()
}

// The nested mode, of document 02 b.
#[unsafe(no_mangle)]
pub extern "C" fn samulsto_elaborate_nested(book: &[u8], out: &mut [u8], work: &mut [u8]) -> Report
    ensures code_value { (result.code ≡ (answer_nested book.now (length out.old) (length work.old)).code) × (result.length ≡ (answer_nested book.now (length out.old) (length work.old)).size) × (result.definitions ≡ (answer_nested book.now (length out.old) (length work.old)).definitions) × (result.lifted ≡ (answer_nested book.now (length out.old) (length work.old)).lifts) × (result.at ≡ (answer_nested book.now (length out.old) (length work.old)).at) }
    ensures out_after { out.new ≡ output_nested book.now out.old (length work.old) }
    ensures work_after { work.new ≡ zeroed work.old }
{
    elaborate_nested(book, out, work).into()
}
