// Loops in place as the rules' sweeps: laws alone, in specs/. No code.
#![tactic(auto)]
