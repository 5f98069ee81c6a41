// The functions that C and Rust link, under the prefix stallhitch_; include/stallhitch.h declares them. Each hands over to the crate that its contract names. They stand twice, here
// and in `capi_c`, for the C interface: a static library exports, and what theorems stand on is a library, whose `no_mangle` only marks what the other exports.
#![tactic(auto)]

pub mod accumulators; // accumulators.rt: eight words behind a reference
pub mod claims; // claims.rt: the image, batches and claims
pub mod posits; // posits.rt: patterns by value
