// No code: what holds over any run of calls, proved in proofs/ over the definitions in specs/.
#![tactic(auto)]
