// Demand 3: what every run of every table comes to. Theorems only.

#![tactic(auto)]
