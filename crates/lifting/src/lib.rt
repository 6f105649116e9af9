// No code. The model between the definition and the passes: lifts recorded by place in one walk, and bodies written once with each lift's range
// replaced by its call, are the definition's result.
#![tactic(auto)]
