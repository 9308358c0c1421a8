//! What the rule "a barrier before every commit" means for runs with a stack, summaries of routines, and that the two agree. There is no code to it.
#![tactic(auto)]
