// The steps of the accumulator, by value: an operand is added at its place, and the new total judged by the range.
// Words stay [u64; 8], with `words` and `from_words` in each clause: by value is a form that is owed (docs/DECISIONS.md), and the theorems of one answer are about the words.
#![tactic(auto)]

mod operands; // operands.rt: what a step brings

ghost use Rattle.std.specs.Prelude.{◌≡◌, cond, ◌+◌, ◌-◌, ◌*◌, ◌/◌, ◌%◌, ◌^◌, leb, nat_abs};
ghost use mir.Val.{bool_byte};
ghost use Rattle.posit.specs.Digits.{reading};
ghost use Rattle.posit.specs.Accumulator.{not_real, clear, is_not_real, is_clear, of_posit, of_product, plus, minus, negated, words, from_words};
ghost use Rattle.quire_words.specs.Words.{wide};
ghost use Rattle.quire_words.proofs.Operand.{amount, brought, turned, escaped, moved, upward};
ghost use Rattle.quire_steps.specs.Sign.{sign_off};

use operands::{Operand, posit_of, product_of};
use p32e2::P32E2;
use quire_words::{NAR_WORD, add, add_word, any_from, complement, is_alone, negative_of, sign_of};

// What is added or taken has a function for each way: the names are the source's, and C's exports call them.

// The exact product of a and b, added.
pub fn add_product(q: [u64; 8], a: P32E2, b: P32E2) -> [u64; 8]
    ensures { result ≡ words 512 (plus 512 (from_words 512 q) (of_product 2 31 a.0 b.0)) }
{
    fdp(q, a, b, true)
}

// The exact product of a and b, taken.
pub fn sub_product(q: [u64; 8], a: P32E2, b: P32E2) -> [u64; 8]
    ensures { result ≡ words 512 (minus 512 (from_words 512 q) (of_product 2 31 a.0 b.0)) }
{
    fdp(q, a, b, false)
}

// One posit, added.
pub fn add_posit(q: [u64; 8], p: P32E2) -> [u64; 8]
    ensures { result ≡ words 512 (plus 512 (from_words 512 q) (of_posit 2 31 p.0)) }
{
    fdp_one(q, p, true)
}

// One posit, taken.
pub fn sub_posit(q: [u64; 8], p: P32E2) -> [u64; 8]
    ensures { result ≡ words 512 (minus 512 (from_words 512 q) (of_posit 2 31 p.0)) }
{
    fdp_one(q, p, false)
}

// The negative of the whole number. That of NaR's pattern is that pattern.
pub fn neg(q: [u64; 8]) -> [u64; 8]
    ensures { result ≡ words 512 (negated (from_words 512 q)) }
{
    negative_of(q)
}

// The total without its sign; that of -(2^511 - 1) is within the range. NaR is tested first, since its words are no number to take a sign off.
pub fn qAbs(q: [u64; 8]) -> [u64; 8]
    ensures { result ≡ words 512 (sign_off (from_words 512 q)) }
{
    if is_alone(q, NAR_WORD) {
        return not_real();
    }
    size_of(q)
}

// The total of another accumulator, added.
pub fn qAddQ(q: [u64; 8], p: [u64; 8]) -> [u64; 8]
    ensures { result ≡ words 512 (plus 512 (from_words 512 q) (from_words 512 p)) }
{
    join(q, p, true)
}

// The total of another accumulator, taken.
pub fn qSubQ(q: [u64; 8], p: [u64; 8]) -> [u64; 8]
    ensures { result ≡ words 512 (minus 512 (from_words 512 q) (from_words 512 p)) }
{
    join(q, p, false)
}

// The number that eight words are, without its sign.
pub fn size_of(q: [u64; 8]) -> [u64; 8]
    ensures { wide result ≡ nat_abs (reading (2 ^ 511) (wide q)) }
{
    if sign_of(q) == 1 { negative_of(q) } else { q }
}

pub fn is_zero(q: [u64; 8]) -> bool
    ensures { result ≡ is_clear (from_words 512 q) }
{
    !any_from(q, 0)
}

pub fn is_nar(q: [u64; 8]) -> bool
    ensures { result ≡ is_not_real (from_words 512 q) }
{
    is_alone(q, NAR_WORD)
}

// The state after `clear`.
pub fn cleared() -> [u64; 8]
    ensures { result ≡ words 512 clear }
{
    [0; 8]
}

// The state that a posit is.
pub fn from_posit(p: P32E2) -> [u64; 8]
    ensures { result ≡ words 512 (of_posit 2 31 p.0) }
{
    step([0; 8], posit_of(p))
}

// A product in one of the two directions: added, or taken where `added` is false. Here and below that is a bool and no closure, since it becomes the sign of what is added (in `join` its words, complemented or not) and chooses no step.
fn fdp(q: [u64; 8], a: P32E2, b: P32E2, added: bool) -> [u64; 8]
    ensures { result ≡ words 512 (moved added (from_words 512 q) (of_product 2 31 a.0 b.0)) }
{
    step_by(q, product_of(a, b), added)
}

// The same for one posit. NaR is looked for here already: the compiler then has one test for it, with that of the decoding.
fn fdp_one(q: [u64; 8], p: P32E2, added: bool) -> [u64; 8]
    ensures { result ≡ words 512 (moved added (from_words 512 q) (of_posit 2 31 p.0)) }
{
    let x = posit_of(p);
    if x.nar {
        return not_real();
    }
    step_by(q, x, added)
}

// The same for the total of another accumulator, whose words stand at their places already: to take them is to add their complement and one.
fn join(q: [u64; 8], p: [u64; 8], added: bool) -> [u64; 8]
    ensures { result ≡ words 512 (moved added (from_words 512 q) (from_words 512 p)) }
{
    if is_alone(q, NAR_WORD) {
        return not_real();
    }
    if is_alone(p, NAR_WORD) {
        return not_real();
    }
    let other = if added { p } else { complement(p) };
    judged(q, (sign_of(p) == 1) == added, add(q, other, !added))
}

// The same for an operand.
fn step_by(q: [u64; 8], x: Operand, added: bool) -> [u64; 8]
    ensures { result ≡ words 512 (moved added (from_words 512 q) (brought x.nar x.negative x.shift x.significand)) }
{
    step(q, x.directed(added))
}

fn step(q: [u64; 8], x: Operand) -> [u64; 8]
    ensures { result ≡ words 512 (plus 512 (from_words 512 q) (brought x.nar x.negative x.shift x.significand)) }
{
    if is_alone(q, NAR_WORD) {
        return not_real();
    }
    if x.nar {
        return not_real();
    }
    judged(q, x.negative, sum_at(q, x))
}

// The words of NaR.
fn not_real() -> [u64; 8]
    ensures { result ≡ words 512 not_real }
{
    [NAR_WORD, 0, 0, 0, 0, 0, 0, 0]
}

// A significand's own two words, added at their place, and upwards for as long as something is carried. Below 0 the words are complemented, and the one that the
// negative lacks is carried in; above them all its digits are ones, and ones with a carry leave a word as it is. So either way the rest stays as soon as
// what is carried is the digit above. The places are counted by hand: with a `for` that breaks off there, a batch takes 1.04 to 1.05 times as long.
fn sum_at(q: [u64; 8], x: Operand) -> [u64; 8]
    ensures { wide result ≡ (wide q + turned x.negative (2 ^ 512 - 1) (amount x.shift x.significand) + bool_byte x.negative) % 2 ^ 512 }
{
    let Operand {
        negative,
        shift,
        significand,
        ..
    } = x;
    let mut r = places_of(q);
    let j = (shift / 64) as usize;
    let o = shift % 64;
    let low = add_word(r[j], turned_word(significand << o, negative), negative);
    let high = add_word(
        r[j + 1],
        turned_word((significand >> 1) >> (63 - o), negative),
        low.carry,
    );
    r[j] = low.low;
    r[j + 1] = high.low;
    let above = turned_word(0, negative);
    let mut carry = high.carry;
    let mut i = j + 2;
    while carry != negative && i < 9 {
        let s = add_word(r[i], above, carry);
        r[i] = s.low;
        carry = s.carry;
        i += 1;
    }
    words_of(r)
}

// The words by their places, the lowest first, so that a shift tells the place. In front of them stands one for what is below the accumulator's unit: nothing.
fn places_of(q: [u64; 8]) -> [u64; 9]
    ensures { upward (2 ^ 64) result ≡ 2 ^ 64 * wide q }
{
    [0, q[7], q[6], q[5], q[4], q[3], q[2], q[1], q[0]]
}

// The words from their places again, without the one below the unit.
fn words_of(r: [u64; 9]) -> [u64; 8]
    ensures { wide result ≡ upward (2 ^ 64) r / 2 ^ 64 }
{
    [r[8], r[7], r[6], r[5], r[4], r[3], r[2], r[1]]
}

// A word complemented, or as it is.
fn turned_word(x: u64, complemented: bool) -> u64
    ensures { result ≡ turned complemented (2 ^ 64 - 1) x }
{
    if complemented { !x } else { x }
}

// The range: where the total and the operand were of one sign, and the wrapped sum is of the other, the exact total is outside. The signs are tested at once,
// since they are hard to foretell one by one.
fn judged(before: [u64; 8], negative: bool, after: [u64; 8]) -> [u64; 8]
    ensures { wide result ≡ cond (escaped (leb (2 ^ 511) (wide before)) negative (leb (2 ^ 511) (wide after))) (2 ^ 511) (wide after) }
{
    let s = negative as u64;
    if (sign_of(before) ^ s) < (sign_of(after) ^ s) {
        not_real()
    } else {
        after
    }
}
