// The Rust's `lift_anonymous_combinator`, and the frames in which its callers keep where they are. Codes 9, 7, 8, 10 in this order.
// `frames`: a node that is walked, by places. `children`: what comes next in it, and its base. `done`: what is done behind it.
// `naming`: one lift with its tests, and the naming pass by place.
#![tactic(auto)]

pub mod children;
pub mod done;
pub mod frames;
pub mod naming;
