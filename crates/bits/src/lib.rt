// No code: bits of a number, as the papers write them.
#![tactic(auto)]
