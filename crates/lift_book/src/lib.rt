// Codes 7 to 11: from an expanded book to the result in the output.
// `flat`, `unlifted`: a book out of which nothing is lifted is told by one walk, and copied. `lift_with`: the naming pass, then the writing pass,
// in lent tables. `room`: tables as long as the book asks.
#![tactic(auto)]

mod flat;
mod lift_with;
pub mod room;
mod unlifted;
