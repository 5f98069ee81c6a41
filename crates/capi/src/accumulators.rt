// Accumulators: eight words behind a reference, word 0 the most significant. A step changes them in place. C has a function for each way, added and taken.
ghost use Rattle.std.specs.Prelude.{◌≡◌};
ghost use Rattle.posit.specs.Accumulator.{clear, is_not_real, is_clear, of_posit, of_product, plus, minus, negated, to_posit, words, from_words};
ghost use Rattle.quire_steps.specs.Sign.{sign_off};

use p32e2::P32E2;
use quire_steps::{
    add_posit, add_product, cleared, is_nar, is_zero, neg, qAbs, qAddQ, qSubQ, sub_posit,
    sub_product,
};
use quire_totals::to_posit;

#[unsafe(no_mangle)]
pub extern "C" fn stallhitch_q32e2_clear(q: &mut [u64; 8])
    ensures { q.new ≡ words 512 clear }
{
    *q = cleared();
}

#[unsafe(no_mangle)]
pub extern "C" fn stallhitch_q32e2_add_product(q: &mut [u64; 8], a: u32, b: u32)
    ensures { q.new ≡ words 512 (plus 512 (from_words 512 q.old) (of_product 2 31 a b)) }
{
    *q = add_product(*q, P32E2(a), P32E2(b));
}

#[unsafe(no_mangle)]
pub extern "C" fn stallhitch_q32e2_sub_product(q: &mut [u64; 8], a: u32, b: u32)
    ensures { q.new ≡ words 512 (minus 512 (from_words 512 q.old) (of_product 2 31 a b)) }
{
    *q = sub_product(*q, P32E2(a), P32E2(b));
}

#[unsafe(no_mangle)]
pub extern "C" fn stallhitch_q32e2_add_posit(q: &mut [u64; 8], a: u32)
    ensures { q.new ≡ words 512 (plus 512 (from_words 512 q.old) (of_posit 2 31 a)) }
{
    *q = add_posit(*q, P32E2(a));
}

#[unsafe(no_mangle)]
pub extern "C" fn stallhitch_q32e2_sub_posit(q: &mut [u64; 8], a: u32)
    ensures { q.new ≡ words 512 (minus 512 (from_words 512 q.old) (of_posit 2 31 a)) }
{
    *q = sub_posit(*q, P32E2(a));
}

#[unsafe(no_mangle)]
pub extern "C" fn stallhitch_q32e2_neg(q: &mut [u64; 8])
    ensures { q.new ≡ words 512 (negated (from_words 512 q.old)) }
{
    *q = neg(*q);
}

#[unsafe(no_mangle)]
pub extern "C" fn stallhitch_q32e2_qAbs(q: &mut [u64; 8])
    ensures { q.new ≡ words 512 (sign_off (from_words 512 q.old)) }
{
    *q = qAbs(*q);
}

#[unsafe(no_mangle)]
pub extern "C" fn stallhitch_q32e2_qAddQ(q: &mut [u64; 8], p: &[u64; 8])
    ensures { q.new ≡ words 512 (plus 512 (from_words 512 q.old) (from_words 512 p.now)) }
{
    *q = qAddQ(*q, *p);
}

#[unsafe(no_mangle)]
pub extern "C" fn stallhitch_q32e2_qSubQ(q: &mut [u64; 8], p: &[u64; 8])
    ensures { q.new ≡ words 512 (minus 512 (from_words 512 q.old) (from_words 512 p.now)) }
{
    *q = qSubQ(*q, *p);
}

#[unsafe(no_mangle)]
pub extern "C" fn stallhitch_q32e2_to_posit(q: &[u64; 8]) -> u32
    ensures { result ≡ to_posit 2 31 (from_words 512 q.now) }
{
    to_posit(*q).0
}

#[unsafe(no_mangle)]
pub extern "C" fn stallhitch_q32e2_is_zero(q: &[u64; 8]) -> bool
    ensures { result ≡ is_clear (from_words 512 q.now) }
{
    is_zero(*q)
}

#[unsafe(no_mangle)]
pub extern "C" fn stallhitch_q32e2_is_nar(q: &[u64; 8]) -> bool
    ensures { result ≡ is_not_real (from_words 512 q.now) }
{
    is_nar(*q)
}
