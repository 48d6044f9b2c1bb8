// Demand 3 of the definition: what the past leaves in a parser, and what it cannot touch. See specs/Lib.antt. It has no code.
#![tactic(auto)]
