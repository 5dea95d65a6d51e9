// Demand 1 and the table of refusals: what the calls answer and leave. Theorems only.

#![tactic(auto)]
