// The bench sheet's cases of the accumulator, 4 and 12 to 14, run on the code. That each check holds is proved from the contracts alone, which compute to what
// the sheet says.
#![tactic(auto)]

use p32e2::P32E2;
use quire_steps::{add_product, cleared, is_nar, is_zero, neg, sub_product};
use quire32::Q32E2;

#[tactic(auto, unfolding(posit::proofs::Computing::everything))]
fn main() {
    let least = add_product(cleared(), P32E2(0x1), P32E2(0x1));
    check::expect(least == [0, 0, 0, 0, 0, 0, 0, 1]);
    let small = add_product(cleared(), P32E2(0x100), P32E2(0x100));
    check::expect(small == [0, 0, 0, 0, 0, 0, 1, 0]);
    check::expect(!is_zero(small));
    let one = Q32E2::ONE.0;
    let below = 0xFFFF_FFFF_FFFF_FFFF;
    check::expect(neg(one) == [below, below, below, below, 0xFFFF_0000_0000_0000, 0, 0, 0]);
    let most = [
        0x7FFF_FFFF_FFFF_FFFF,
        below,
        below,
        below,
        below,
        below,
        below,
        below,
    ];
    check::expect(is_nar(add_product(most, P32E2(0x1), P32E2(0x1))));
    let fewest = [0x8000_0000_0000_0000, 0, 0, 0, 0, 0, 0, 1];
    check::expect(is_nar(sub_product(fewest, P32E2(0x1), P32E2(0x1))));
}
