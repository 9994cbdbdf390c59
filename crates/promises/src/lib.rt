// Theorems about the rules, and nothing that runs: specs/ holds them.
#![tactic(auto)]
