// Document 01, "The definition book": every byte string is a book, or is refused with 3, 4 or 5 at the place of the item at fault.
// `characters`, `utf8`: names, byte by byte. `cursor`: a byte, number, name or text, and the cursor after it. `name_list`: a count and as many items, or names.
// `combinator`: the cycle of combinators, fields and cases, with the levels left. `body`: one definition, in any range. `entry`, `contents`:
// "Contents first". `book`: all of it.
#![tactic(auto)]

pub mod body;
pub mod book;
mod characters;
mod combinator;
mod contents;
pub mod cursor;
mod entry;
mod name_list;
mod utf8;
