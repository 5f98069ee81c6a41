// The rounding of a total, by value, and its parts.
#![tactic(auto)]

ghost use Rattle.std.specs.Prelude.{◌≡◌, ◌<◌, map};
ghost use Rattle.posit.specs.Rounding.{rounded};
ghost use Rattle.posit.specs.Accumulator.{to_posit, parts_of, from_words};
ghost use Rattle.posit.proofs.Signs.{with_sign};
ghost use Rattle.posit.specs.Pattern.{unit};
ghost use Rattle.quire_words.specs.Words.{wide};
ghost use Rattle.exact_terms.proofs.Wide.{FirstDigits};

use p32e2::P32E2;
use quire_steps::{size_of, sub_posit};
use quire_words::{NAR_WORD, any_from, is_alone};
use rounding::pack;

pub fn to_posit(q: [u64; 8]) -> P32E2
    ensures { result.0 ≡ to_posit 2 31 (from_words 512 q) }
{
    if is_alone(q, 0) {
        return P32E2::ZERO;
    }
    if is_alone(q, NAR_WORD) {
        return P32E2::NAR;
    }
    let negative = NAR_WORD <= q[0];
    P32E2(round_size(negative, size_of(q)))
}

// The total in two parts, and in three, by the source's names. The clause is over the list of the patterns: one form for every count, and
// a name for it would be one more definition to believe.
pub fn two_posits(q: [u64; 8]) -> [P32E2; 2]
    ensures { map (λ (p : P32E2). p.0) result ≡ parts_of 2 31 512 2 (from_words 512 q) }
{
    parts::<2>(q)
}

pub fn three_posits(q: [u64; 8]) -> [P32E2; 3]
    ensures { map (λ (p : P32E2). p.0) result ≡ parts_of 2 31 512 3 (from_words 512 q) }
{
    parts::<3>(q)
}

// A total in parts: each the rounding of what the parts before it leave.
fn parts<const N: usize>(q: [u64; 8]) -> [P32E2; N]
    ensures { map (λ (p : P32E2). p.0) result ≡ parts_of 2 31 512 N (from_words 512 q) }
{
    let mut rest = q;
    let mut parts = [to_posit(q); N];
    for i in 1..N {
        let left = sub_posit(rest, parts[i - 1]);
        parts[i] = to_posit(left);
        rest = left;
    }
    parts
}

// The number w, which is not 0, rounded, with its sign.
fn round_size(negative: bool, w: [u64; 8]) -> u32
    requires { 0 < wide w }
    ensures { result ≡ rounded 2 31 (unit 2 31) (with_sign negative (wide w)) }
{
    let x = first_digits(w);
    pack(
        negative,
        x.unit + 1,
        x.digits >> 2,
        0 < x.digits % 4 + x.more as u64,
    )
}

// The first 64 digits of a number, from its leading one on, as digits·2^unit in the unit of `pack`, and whether anything follows them.
#[derive(Drop)]
struct Leading {
    unit: u32,
    digits: u64,
    more: bool,
}

// Word 0 stands 448 digits above the accumulator's unit, and that one 846 above the unit of `pack`.
fn first_digits(w: [u64; 8]) -> Leading
    requires { 0 < wide w }
    ensures { FirstDigits (wide w) result.unit result.digits result.more }
{
    let i = w.iter().position(|d| *d != 0).unwrap(); // the first word that is not 0
    let z = w[i].leading_zeros();
    let next = w.get(i + 1).copied().unwrap_or(0);
    Leading {
        unit: 1294 - 64 * (i as u32) - z,
        digits: (w[i] << z) + ((next >> 1) >> (63 - z)),
        more: (0 < next << z) | any_from(w, i + 2),
    }
}
