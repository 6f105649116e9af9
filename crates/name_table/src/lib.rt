// Names that are looked up: the Rust's `used_names` and its map of macros, as flat tables.
// `forks`: a name's way to its row, bit by bit. `taken`: a row for each name, and the names taken so far. `find`: a name's row. `kinds`: the
// definitions of some kinds, each in a row.
#![tactic(auto)]

pub mod find;
pub mod forks;
pub mod kinds;
pub mod taken;
