// No code. Demand 3 of the order in its own words (specs/), proved of every accepted result: flat, apart, put back, shortest parameter lists.
#![tactic(auto)]
