// The view from the words of a simulation's changing part to the rules' world: definitions and laws, in specs/. No code.
#![tactic(auto)]
