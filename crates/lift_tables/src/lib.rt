// What the naming pass leaves for the writing pass, and one lift entered there. Codes 8 and 10.
// `tables`: order, rows, parameters and generated names in the work area. `binders`: the first binder of a name, in a row of records.
// `enter_lift`: the lift's parameters with their types (the Rust's `build_param_defns`), its row and its name.
#![tactic(auto)]

pub mod binders;
pub mod enter_lift;
pub mod tables;
