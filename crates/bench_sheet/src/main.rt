// The bench sheet's cases 1 to 11, run on the code. That each check holds is proved from the contracts of the operations alone, which compute to what the sheet
// says.
#![tactic(auto)]

use p32e2::P32E2;

#[tactic(auto, unfolding(posit::proofs::Computing::everything))]
fn main() {
    check::expect(P32E2(0x7FFF_FFFD).add(P32E2(0x7FFF_FFFD)).0 == 0x7FFF_FFFE);
    check::expect(P32E2(0x7FFF_FFFE).add(P32E2(0x7FFF_FFFE)).0 == 0x7FFF_FFFE);
    check::expect(P32E2(0x7FFF_FFFF).add(P32E2(0x7FFF_FFFF)).0 == 0x7FFF_FFFF);
    check::expect(P32E2(0x1).mul(P32E2(0x1)).0 == 0x1);
    check::expect(P32E2(0x4000_0000).div(P32E2(0x4C00_0000)).0 == 0x32AA_AAAB);
    check::expect(P32E2(0).div(P32E2(0)).0 == 0x8000_0000);
    check::expect(P32E2(0x1).sqrt().0 == 0x0000_8000);
    check::expect(P32E2(0x7FFF_FFFF).sqrt().0 == 0x7FFF_8000);
    check::expect(P32E2(0x4000_0007).mul_add(P32E2(0x4200_0000), P32E2(0)).0 == 0x4200_0009);
    check::expect(P32E2(0x7FFF_1000).mul_add(P32E2(0x7FFF_2000), P32E2(0)).0 == 0x7FFF_FFFD);
    let one = P32E2(0x4000_0000);
    check::expect(one.mul_sub(one, one).0 == 0);
}
