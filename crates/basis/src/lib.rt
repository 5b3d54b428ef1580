// What every other crate counts and searches with: definitions and laws, and no code.

#![tactic(auto)]
