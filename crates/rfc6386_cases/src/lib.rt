// Worked cases of the definition, and wrong parsers: the lists are specs/Cases.antt and specs/Fields.antt, with one statement each in
// proofs. It has no code.
#![tactic(auto)]
