// Generated names. One is kept in a buffer's first bytes, beside its length, and grows there: a child's name is its node's with more behind
// it. The buffer is 255 bytes long, so a length past its end says that the name is too long, and stays so whatever is put behind.
ghost use Rattle.std.specs.Prelude.{[]};
ghost use Rattle.definition.specs.Tree.{ints, wrap, vec};
ghost use Rattle.definition.specs.Names.{segment, decimal, case_segment, shell_segment};
ghost use Rattle.generated_name.specs.child_name.Name.{Child};

use crate::segment::{generated_segment, put_decimal};
use buffer::writes::{put_bytes, put_item};

// The name of a node's child by its label: dst holds the node's name in its first `at` bytes.
pub fn child_generated_name(label: &[u8], dst: &mut [u8], at: usize) -> usize
    ensures { Child dst.old at (segment label.now) dst.new result }
{
    let first = put_item(b'_', dst, at);
    generated_segment(label, dst, first)
}

// The child of a Wrap. Like the next it is a function of its own, since it says whose child it names: one for both would take the bytes themselves.
pub fn wrap_generated_name(dst: &mut [u8], at: usize) -> usize
    ensures { Child dst.old at (shell_segment (wrap [] [])) dst.new result }
{
    put_bytes(b"_anon", dst, at)
}

// The child of a Vec, an Array or an Option.
pub fn item_generated_name(dst: &mut [u8], at: usize) -> usize
    ensures { Child dst.old at (shell_segment vec) dst.new result }
{
    put_bytes(b"_item", dst, at)
}

// The case number i of a Choice over Ints or Arrays.
pub fn choice_generated_name(i: usize, dst: &mut [u8], at: usize) -> usize
    ensures { Child dst.old at (case_segment ints [] i) dst.new result }
{
    let o = put_bytes(b"_choice", dst, at);
    put_decimal(i, dst, o)
}

// A name with '_' and a number behind it.
pub(crate) fn numbered_name(i: usize, dst: &mut [u8], at: usize) -> usize
    ensures { Child dst.old at (decimal i) dst.new result }
{
    let o = put_item(b'_', dst, at);
    put_decimal(i, dst, o)
}
