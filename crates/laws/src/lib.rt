// No code. What follows from the definition (specs/Laws.antt): reading and writing are inverse, a result is a book, code 10's sum is a size.
#![tactic(auto)]
