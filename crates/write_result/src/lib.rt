// The writing pass: the finished book, each body once at its final place.
// `tables`: the expanded book and what the naming pass leaves. `next_lift`: the next lift from a place on. `invocation`: its call. `splice`: bytes
// with each lift's range replaced by its call. `lifted`: its definition. `result`: contents and bodies. A buffer and a place go along apart: see
// buffer::writes.
#![tactic(auto)]

mod invocation;
mod lifted;
mod next_lift;
pub mod result;
mod splice;
pub mod tables;
