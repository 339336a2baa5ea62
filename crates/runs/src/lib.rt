// Demand 3: what holds over every sequence of calls, events and ticks from a fresh configuration. This crate has no code of its own; its
// specs/ say what is promised of the executive's, and its proofs/ show it.
#![tactic(auto)]
