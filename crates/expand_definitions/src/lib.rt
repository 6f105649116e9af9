// The Rust's `expand_definitions`: the naming pass over the expanded book. Nothing is written yet; code 10 is tested as if it were.
// `own_params`: a definition's own parameters as binders. `format`: one definition. `in_order`: all of them. `naming_pass`: with the names taken
// at the start. `taken`: these names. `walked`: on trees, that this walk is the definition's.
#![tactic(auto)]

mod format;
mod in_order;
pub mod naming_pass;
mod own_params;
mod taken;
pub mod walked;
