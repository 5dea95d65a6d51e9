// Sums and counts over the numbers below n: definitions and laws, no code.

#![tactic(auto)]
