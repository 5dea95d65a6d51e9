// What it is for a contract to allow no second answer, and to have one: definitions and laws, no code.

#![tactic(auto)]
