// The accumulator Q32E2: sums of posits of 32 bits and of their exact products, without rounding. It counts units of 2^-240 in 512 bits.
#![tactic(auto)]

ghost use Rattle.std.specs.Prelude.{◌≡◌, [], ◌∷◌, ◌^◌, map};
ghost use Rattle.posit.specs.Accumulator.{not_real, clear, is_not_real, is_clear, of_posit, of_product, plus, minus, negated, to_posit, parts_of, words, from_words};
ghost use Rattle.quire_steps.specs.Sign.{sign_off};

use p32e2::P32E2;
use quire_totals::{three_posits, two_posits};

// The eight words, word 0 most significant: one number in two's complement. The one pattern of -2^511 is NaR.
#[derive(Clone, Copy)]
pub struct Q32E2(pub [u64; 8]);

impl Q32E2 {
    pub const ZERO: Q32E2 = Q32E2([0, 0, 0, 0, 0, 0, 0, 0]);

    pub const ONE: Q32E2 = Q32E2([0, 0, 0, 0, 0x0001_0000_0000_0000, 0, 0, 0]);

    pub const NAR: Q32E2 = Q32E2([0x8000_0000_0000_0000, 0, 0, 0, 0, 0, 0, 0]);

    // `init`, `from_bits` and `to_bits` are the source's names, and plain methods where traits could stand are a form that is owed (docs/DECISIONS.md).
    pub fn init() -> Q32E2
        ensures { result.0 ≡ words 512 clear }
    {
        Q32E2::ZERO
    }

    pub fn from_bits(v: [u64; 8]) -> Q32E2
        ensures { result.0 ≡ v }
    {
        Q32E2(v)
    }

    pub fn from_posit(p: P32E2) -> Q32E2
        ensures { result.0 ≡ words 512 (of_posit 2 31 p.0) }
    {
        Q32E2(quire_steps::from_posit(p))
    }

    pub fn to_bits(&self) -> [u64; 8]
        ensures { result ≡ self.now.0 }
    {
        self.0 // every word, as it stands
    }

    pub fn to_posit(&self) -> P32E2
        ensures { result.0 ≡ to_posit 2 31 (from_words 512 self.now.0) }
    {
        quire_totals::to_posit(self.0)
    }

    pub fn is_zero(&self) -> bool
        ensures { result ≡ is_clear (from_words 512 self.now.0) }
    {
        quire_steps::is_zero(self.0)
    }

    pub fn is_nar(&self) -> bool
        ensures { result ≡ is_not_real (from_words 512 self.now.0) }
    {
        quire_steps::is_nar(self.0)
    }

    // A method for each way, since the names are the source's; the clauses are about the words, as the theorems of one answer are.
    pub fn add_product(&mut self, a: P32E2, b: P32E2)
        ensures { self.new.0 ≡ words 512 (plus 512 (from_words 512 self.old.0) (of_product 2 31 a.0 b.0)) }
    {
        self.0 = quire_steps::add_product(self.0, a, b);
    }

    pub fn sub_product(&mut self, a: P32E2, b: P32E2)
        ensures { self.new.0 ≡ words 512 (minus 512 (from_words 512 self.old.0) (of_product 2 31 a.0 b.0)) }
    {
        self.0 = quire_steps::sub_product(self.0, a, b);
    }

    pub fn add_posit(&mut self, p: P32E2)
        ensures { self.new.0 ≡ words 512 (plus 512 (from_words 512 self.old.0) (of_posit 2 31 p.0)) }
    {
        self.0 = quire_steps::add_posit(self.0, p);
    }

    pub fn sub_posit(&mut self, p: P32E2)
        ensures { self.new.0 ≡ words 512 (minus 512 (from_words 512 self.old.0) (of_posit 2 31 p.0)) }
    {
        self.0 = quire_steps::sub_posit(self.0, p);
    }

    pub fn neg(&mut self)
        ensures { self.new.0 ≡ words 512 (negated (from_words 512 self.old.0)) }
    {
        self.0 = quire_steps::neg(self.0);
    }

    pub fn qAbs(&mut self)
        ensures { self.new.0 ≡ words 512 (sign_off (from_words 512 self.old.0)) }
    {
        self.0 = quire_steps::qAbs(self.0);
    }

    // The other accumulator comes by value, as a posit does, so that it may be this one: `q.qAddQ(q)`.
    pub fn qAddQ(&mut self, p: Q32E2)
        ensures { self.new.0 ≡ words 512 (plus 512 (from_words 512 self.old.0) (from_words 512 p.0)) }
    {
        self.0 = quire_steps::qAddQ(self.0, p.0);
    }

    pub fn qSubQ(&mut self, p: Q32E2)
        ensures { self.new.0 ≡ words 512 (minus 512 (from_words 512 self.old.0) (from_words 512 p.0)) }
    {
        self.0 = quire_steps::qSubQ(self.0, p.0);
    }

    pub fn clear(&mut self)
        ensures { self.new.0 ≡ words 512 clear }
    {
        self.0 = quire_steps::cleared();
    }

    // Two names for two counts, which are the source's; the clauses are those of `quire_totals`.
    pub fn into_two_posits(self) -> [P32E2; 2]
        ensures { map (λ (p : P32E2). p.0) result ≡ parts_of 2 31 512 2 (from_words 512 self.0) }
    {
        two_posits(self.0)
    }

    pub fn into_three_posits(self) -> [P32E2; 3]
        ensures { map (λ (p : P32E2). p.0) result ≡ parts_of 2 31 512 3 (from_words 512 self.0) }
    {
        three_posits(self.0)
    }
}

// The constants' words, in the order of their declarations. Nothing calls this: its contract ties the constants to the definitions.
fn words_of_constants() -> [[u64; 8]; 3]
    ensures { result ≡ words 512 clear ∷ words 512 (of_posit 2 31 (2 ^ 30)) ∷ words 512 not_real ∷ [] }
{
    let zero = Q32E2::ZERO.0; // each in a variable: the check has no array of fields
    let one = Q32E2::ONE.0;
    let nar = Q32E2::NAR.0;
    [zero, one, nar]
}
