// Definitions and theorems over all calls; this crate has no code of its own.
#![tactic(auto)]
