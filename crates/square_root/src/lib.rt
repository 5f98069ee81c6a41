// The square root of a pattern, rounded once: the whole root of a number of 64 bits, and a remainder that only tells whether the root is exact.
#![tactic(auto)]

ghost use Rattle.std.specs.Prelude.{◌≡◌, suc, ◌*◌, ◌<◌, ◌≤◌};
ghost use Rattle.posit.specs.Operation.{square_root};

use rounding::pack;
use unpacking::NAR;
use unpacking::scaled::scaled_of;

// The scale is halved, and where it is odd the significand is doubled first. Half the scale of 1 is 60, and that of `pack` 1024.
pub fn sqrt(p: u32) -> u32
    ensures { result ≡ square_root 2 31 p }
{
    if p == 0 {
        return 0;
    }
    if NAR <= p {
        return NAR;
    }
    let a = scaled_of(p);
    let n = a.significand << (32 + a.scale % 2);
    let r = root_of(n);
    pack(false, a.scale / 2 + 964, r << 30, r * r < n)
}

// The whole root of n. It does not matter to the result what the guess is, since it is corrected step by step; from 2^62 on one step is enough.
fn root_of(n: u64) -> u64
    ensures { (result * result ≤ n) × (n < suc result * suc result) }
{
    let mut r = guess(n) as u64;
    while n < r * r {
        r -= 1;
    }
    while 2 * r < n - r * r {
        r += 1;
    }
    r
}

// Lines near 1/√x, for x in steps of 1/32 from 1/4 to 1; the first eight are not asked for. The upper half of an entry is the height where the step i
// begins, in units of 2^-15; the lower half is how far the line falls within the step, in units of 2^-18.
static LINES: [u32; 32] = [
    0,
    0,
    0,
    0,
    0,
    0,
    0,
    0,
    0xFFD7_7521,
    0xF13D_6316,
    0xE4E1_553F,
    0xDA3E_4A5B,
    0xD0F6_419A,
    0xC8C6_3A71,
    0xC17A_347F,
    0xBAEC_2F7E,
    0xB4FD_2B3D,
    0xAF97_2795,
    0xAAA5_246A,
    0xA618_21A6,
    0xA1E4_1F37,
    0x9DFE_1D10,
    0x9A5C_1B25,
    0x96F8_196E,
    0x93CA_17E4,
    0x90CE_167F,
    0x8DFE_153C,
    0x8B57_1417,
    0x88D4_130A,
    0x8673_1214,
    0x8431_1133,
    0x820B_1063,
];

// Near the root of n from 2^62 on. With x = n/2^64: y is 1/√x by a line, in units of 2^-31; z is a Newton step from y, in units of 2^-30; r is x·z, not
// above the root; and what is left of n, times z/2, is added.
fn guess(n: u64) -> u32 {
    let x = (n >> 32) as u32;
    let line = LINES[(n >> 59) as usize];
    let y = (line & 0xFFFF_0000).wrapping_sub(((line % 0x1_0000) * ((x >> 11) % 0x1_0000)) >> 3);
    let z = upper(y, 0xBFFF_FFF8u32.wrapping_sub(upper(x, upper(y, y))));
    let r = upper(x, z) << 2;
    let rest = n.wrapping_sub((r as u64) * (r as u64));
    let more = ((upper(((rest >> 14) % 0x1_0000_0000) as u32, z) >> 8) + 1) >> 9;
    // not `r.saturating_add(more)`: what the two loops count from is then computed a second time, and a root takes a sixth more instructions
    if more < u32::MAX - r {
        r + more
    } else {
        u32::MAX
    }
}

// The upper half of a product.
fn upper(a: u32, b: u32) -> u32 {
    (((a as u64) * (b as u64)) >> 32) as u32
}
