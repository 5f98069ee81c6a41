// Posits of 32 bits: a pattern comes in as a u32, and the result's pattern goes out.
ghost use Rattle.std.specs.Prelude.{◌≡◌, ◌^◌};
ghost use Rattle.posit.specs.Pattern.{opposite};
ghost use Rattle.posit.specs.Operation.{sum, difference, product, quotient, square_root, fused_sum, fused_difference, product_taken};

#[unsafe(no_mangle)]
pub extern "C" fn stallhitch_p32e2_neg(a: u32) -> u32
    ensures { result ≡ opposite 31 a }
{
    capi::posits::stallhitch_p32e2_neg(a)
}

#[unsafe(no_mangle)]
pub extern "C" fn stallhitch_p32e2_add(a: u32, b: u32) -> u32
    ensures { result ≡ sum 2 31 a b }
{
    capi::posits::stallhitch_p32e2_add(a, b)
}

#[unsafe(no_mangle)]
pub extern "C" fn stallhitch_p32e2_sub(a: u32, b: u32) -> u32
    ensures { result ≡ difference 2 31 a b }
{
    capi::posits::stallhitch_p32e2_sub(a, b)
}

#[unsafe(no_mangle)]
pub extern "C" fn stallhitch_p32e2_mul(a: u32, b: u32) -> u32
    ensures { result ≡ product 2 31 a b }
{
    capi::posits::stallhitch_p32e2_mul(a, b)
}

#[unsafe(no_mangle)]
pub extern "C" fn stallhitch_p32e2_div(a: u32, b: u32) -> u32
    ensures { result ≡ quotient 2 31 a b }
{
    capi::posits::stallhitch_p32e2_div(a, b)
}

#[unsafe(no_mangle)]
pub extern "C" fn stallhitch_p32e2_recip(a: u32) -> u32
    ensures { result ≡ quotient 2 31 (2 ^ 30) a }
{
    capi::posits::stallhitch_p32e2_recip(a)
}

#[unsafe(no_mangle)]
pub extern "C" fn stallhitch_p32e2_sqrt(a: u32) -> u32
    ensures { result ≡ square_root 2 31 a }
{
    capi::posits::stallhitch_p32e2_sqrt(a)
}

// a·b + c
#[unsafe(no_mangle)]
pub extern "C" fn stallhitch_p32e2_mul_add(a: u32, b: u32, c: u32) -> u32
    ensures { result ≡ fused_sum 2 31 a b c }
{
    capi::posits::stallhitch_p32e2_mul_add(a, b, c)
}

// a·b - c
#[unsafe(no_mangle)]
pub extern "C" fn stallhitch_p32e2_mul_sub(a: u32, b: u32, c: u32) -> u32
    ensures { result ≡ fused_difference 2 31 a b c }
{
    capi::posits::stallhitch_p32e2_mul_sub(a, b, c)
}

// c - a·b
#[unsafe(no_mangle)]
pub extern "C" fn stallhitch_p32e2_sub_product(c: u32, a: u32, b: u32) -> u32
    ensures { result ≡ product_taken 2 31 c a b }
{
    capi::posits::stallhitch_p32e2_sub_product(c, a, b)
}
