// The desk: the image of an accumulator, batches of products, and claims, each with its refusals. The accumulator comes and goes as its eight words.
#![tactic(auto)]

pub mod batch; // batch.rt: products of two lists, added up
pub mod claim; // claim.rt: a claim against the image that is rebuilt
pub mod image; // image.rt: 64 bytes, written and read
pub mod lent; // lent.rt: the same over a lent accumulator
pub mod refusal; // refusal.rt: when the desk says no
