// What every call does first. `begin`: codes 1 to 5, and whether the book has macros. `opened`: code 6, and the expanded book.
#![tactic(auto)]

pub mod begin;
pub mod opened;
