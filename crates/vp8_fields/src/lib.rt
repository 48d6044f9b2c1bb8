// The sub-headers of parser.rs, a module each. A function reads from a decoder over the record as it was, and gives the record and how many
// bits the decoder has then gone past the area's end. Its contract says that the definition's tree was run: what it read, written over the
// old record, and where the decoder then stands. Most are marked to be inlined: a decoder that no call is lent stays in registers.
#![tactic(auto)]

mod arrays;
pub mod coefficients;
pub mod deltas;
pub mod modes;
pub mod motion;
pub mod quantizer;
pub mod segmentation;
