// Sum, product and fused sum of patterns, each rounded once: over exact terms, which are posits or whole products.
#![tactic(auto)]

mod sums; // sums.rt: the sum of two terms
mod terms; // terms.rt: posits and products as exact terms

ghost use Rattle.std.specs.Prelude.{◌≡◌};
ghost use Rattle.posit.specs.Operation.{sum, product, fused_sum};

use terms::Operand;
use unpacking::{NAR, either_nar};

pub fn add(p: u32, q: u32) -> u32
    ensures { result ≡ sum 2 31 p q }
{
    if either_nar(p, q) {
        return NAR;
    }
    if p == 0 {
        return q;
    }
    if q == 0 {
        return p;
    }
    Operand::of(p).term().rounded_sum(Operand::of(q).term())
}

pub fn mul(p: u32, q: u32) -> u32
    ensures { result ≡ product 2 31 p q }
{
    if either_nar(p, q) {
        return NAR;
    }
    if p == 0 || q == 0 {
        return 0;
    }
    Operand::of(p).times(Operand::of(q)).rounded()
}

// p·q + s
pub fn mul_add(p: u32, q: u32, s: u32) -> u32
    ensures { result ≡ fused_sum 2 31 p q s }
{
    if either_nar(p, q) || s == NAR {
        return NAR;
    }
    if p == 0 || q == 0 {
        return s;
    }
    let t = Operand::of(p).times(Operand::of(q));
    if s == 0 {
        return t.rounded();
    }
    t.rounded_sum(Operand::of(s).term())
}
