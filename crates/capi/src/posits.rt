// Posits of 32 bits: a pattern comes in as a u32, and the result's pattern goes out.
ghost use Rattle.std.specs.Prelude.{◌≡◌, ◌^◌};
ghost use Rattle.posit.specs.Pattern.{opposite};
ghost use Rattle.posit.specs.Operation.{sum, difference, product, quotient, square_root, fused_sum, fused_difference, product_taken};

use p32e2::P32E2;

#[unsafe(no_mangle)]
pub extern "C" fn stallhitch_p32e2_neg(a: u32) -> u32
    ensures { result ≡ opposite 31 a }
{
    P32E2(a).neg().0
}

#[unsafe(no_mangle)]
pub extern "C" fn stallhitch_p32e2_add(a: u32, b: u32) -> u32
    ensures { result ≡ sum 2 31 a b }
{
    P32E2(a).add(P32E2(b)).0
}

#[unsafe(no_mangle)]
pub extern "C" fn stallhitch_p32e2_sub(a: u32, b: u32) -> u32
    ensures { result ≡ difference 2 31 a b }
{
    P32E2(a).sub(P32E2(b)).0
}

#[unsafe(no_mangle)]
pub extern "C" fn stallhitch_p32e2_mul(a: u32, b: u32) -> u32
    ensures { result ≡ product 2 31 a b }
{
    P32E2(a).mul(P32E2(b)).0
}

#[unsafe(no_mangle)]
pub extern "C" fn stallhitch_p32e2_div(a: u32, b: u32) -> u32
    ensures { result ≡ quotient 2 31 a b }
{
    P32E2(a).div(P32E2(b)).0
}

#[unsafe(no_mangle)]
pub extern "C" fn stallhitch_p32e2_recip(a: u32) -> u32
    ensures { result ≡ quotient 2 31 (2 ^ 30) a }
{
    P32E2(a).recip().0
}

#[unsafe(no_mangle)]
pub extern "C" fn stallhitch_p32e2_sqrt(a: u32) -> u32
    ensures { result ≡ square_root 2 31 a }
{
    P32E2(a).sqrt().0
}

// a·b + c
#[unsafe(no_mangle)]
pub extern "C" fn stallhitch_p32e2_mul_add(a: u32, b: u32, c: u32) -> u32
    ensures { result ≡ fused_sum 2 31 a b c }
{
    P32E2(a).mul_add(P32E2(b), P32E2(c)).0
}

// a·b - c
#[unsafe(no_mangle)]
pub extern "C" fn stallhitch_p32e2_mul_sub(a: u32, b: u32, c: u32) -> u32
    ensures { result ≡ fused_difference 2 31 a b c }
{
    P32E2(a).mul_sub(P32E2(b), P32E2(c)).0
}

// c - a·b
#[unsafe(no_mangle)]
pub extern "C" fn stallhitch_p32e2_sub_product(c: u32, a: u32, b: u32) -> u32
    ensures { result ≡ product_taken 2 31 c a b }
{
    P32E2(c).sub_product(P32E2(a), P32E2(b)).0
}
