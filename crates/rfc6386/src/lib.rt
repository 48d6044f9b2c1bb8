// The definition of what a VP8 frame header says and of what a parser then keeps: see specs/Lib.antt. It has no code.
#![tactic(auto)]
