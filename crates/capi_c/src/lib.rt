// What C and Rust link, under the prefix stallhitch_; include/stallhitch.h declares it. Each function hands over to the one of `capi` that has its name, and states its clauses again:
// they stand twice for the C interface, since a static library exports, and what theorems stand on is a library.
#![tactic(auto)]

pub mod accumulators; // accumulators.rt: eight words behind a reference
pub mod claims; // claims.rt: the image, batches and claims
pub mod posits; // posits.rt: patterns by value
