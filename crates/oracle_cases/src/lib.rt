// Computed cases only: specs/ holds them.
#![tactic(auto)]
