// Document 01, "listing", line by line into a buffer.
// `shown`: names and numbers. `refusal`, `printed`: the line of a refusal; those of a result. `answers`: of either. `lines`: a book listed, in each
// mode.
#![tactic(auto)]

mod answers;
pub mod lines;
mod printed;
mod refusal;
mod shown;
