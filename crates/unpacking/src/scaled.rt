// A posit's size as a significand at a scale: what the arithmetic works on.
ghost use Rattle.unpacking.specs.Scaled.{IsScaled};

use super::NAR;
use super::unsigned::Unsigned;

// significand·2^scale, in units of 2^-150; the leading one of the significand is at bit 30.
#[derive(Clone, Copy)]
pub struct Scaled {
    pub scale: u32,
    pub significand: u64,
}

// The scale and the significand of every pattern; for zero and NaR, which have none, both are 0, as `IsScaled` says: a step adds zero by that significand, and no Option is unwrapped.
#[tactic(auto, using(crate::proofs::Scale::zero_unscaled, crate::proofs::Scale::nar_unscaled))]
pub fn scaled_of(p: u32) -> Scaled
    ensures { IsScaled p result.scale result.significand }
{
    match p {
        0 | NAR => Scaled {
            scale: 0,
            significand: 0,
        },
        _ => Unsigned::of(p).scaled(),
    }
}
