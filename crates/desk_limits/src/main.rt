// Every number of the desk at its limit. Each line that is printed is a count or a number, and `stdout` has what they must be, worked out by hand from the
// table of refusals.
#![tactic(auto)]

ghost use Rattle.std.specs.Prelude.{◌<◌};

use desk::claim::check_claim;
use desk::image::{image_of, write_image};
use desk::lent::{add_batch, read_image};
use desk::refusal::{Refusal, number_of};
use quire32::Q32E2;
use std::io;

// A state whose bytes are none of them 7.
const STATE: [u64; 8] = [
    0x0102_0304_0506_0809,
    0x0A0B_0C0D_0E0F_1011,
    0x1213_1415_1617_1819,
    0x1A1B_1C1D_1E1F_2021,
    0x2223_2425_2627_2829,
    0x2A2B_2C2D_2E2F_3031,
    0x3233_3435_3637_3839,
    0x3A3B_3C3D_3E3F_4041,
];

// The patterns of 1 and 2.
const ONE_AND_TWO: [u32; 2] = [0x4000_0000, 0x4800_0000];

fn main(rt: HostRuntime) -> io::Result<()> {
    written(&rt)?;
    read(&rt)?;
    batches(&rt)?;
    claims(&rt)?;
    nar_claims(&rt)
}

// Images written at lengths around 64: the number, and how many bytes changed.
fn written(rt: &impl Print) -> io::Result<()> {
    for n in [0, 63, 64, 65, 200] {
        let mut buffer = [7u8; 200];
        say(rt, write_image(STATE, &mut buffer[..n]))?;
        let changed = buffer.iter().filter(|byte| **byte != 7).count();
        println!(rt; "{changed}")?;
    }
    Ok(())
}

// Images read at the same lengths: the number, and the last word of the accumulator, which a refusal leaves as it was.
fn read(rt: &impl Print) -> io::Result<()> {
    let bytes = [1u8; 200];
    for n in [0, 63, 64, 65, 200] {
        let mut q = Q32E2(STATE);
        say(rt, read_image(&mut q, &bytes[..n]))?;
        let last = q.0[7];
        println!(rt; "{last}")?;
    }
    Ok(())
}

// Batches of 0, 16,384 and 16,385 pairs, and of lists that differ in length at the limit: the number, and word 4 of a sum of ones.
fn batches(rt: &impl Print) -> io::Result<()> {
    let ones = [0x4000_0000u32; 16385];
    for (m, n) in [
        (0, 0),
        (1, 0),
        (0, 1),
        (16384, 16384),
        (16385, 16385),
        (16385, 16384),
        (16384, 16385),
        (16384, 16383),
    ] {
        let mut q = Q32E2::ZERO;
        say(rt, add_batch(&mut q, &ones[..m], &ones[..n]))?;
        let units = q.0[4];
        println!(rt; "{units}")?;
    }
    Ok(())
}

// Claims: the right one; one byte of it changed, at each of the 64 places; lengths 0, 63, 64 and 65; and the order of the refusals.
fn claims(rt: &impl Print) -> io::Result<()> {
    let right = image_of([0, 0, 0, 0, 0x0005_0000_0000_0000, 0, 0, 0]);
    say(rt, check_claim(&ONE_AND_TWO, &ONE_AND_TWO, &right))?;
    let refused = (0..64).filter(|i| is_changed_refused(right, *i)).count();
    println!(rt; "{refused}")?;
    let zeros = [0u32; 16385];
    let bytes = [0u8; 65];
    for (m, n, k) in [
        (0, 0, 0),
        (0, 0, 63),
        (0, 0, 64),
        (0, 0, 65),
        (16385, 16384, 63),
        (16385, 16385, 63),
        (16384, 16384, 63),
        (16384, 16384, 64),
    ] {
        say(rt, check_claim(&zeros[..m], &zeros[..n], &bytes[..k]))?;
    }
    Ok(())
}

// Whether the claim with byte i changed is answered 5.
fn is_changed_refused(right: [u8; 64], i: usize) -> bool
    requires { i < 64 }
{
    let mut claim = right;
    claim[i] = !claim[i];
    check_claim(&ONE_AND_TWO, &ONE_AND_TWO, &claim) == Err(Refusal::Differs)
}

// A NaR claim for a batch that gives NaR, and for one that does not; and a number for a batch that gives NaR.
fn nar_claims(rt: &impl Print) -> io::Result<()> {
    for (p, word) in [
        (0x8000_0000, 0x8000_0000_0000_0000),
        (0x4000_0000, 0x8000_0000_0000_0000),
        (0x8000_0000, 0),
    ] {
        let a = [p, 0];
        let b = [0x4000_0000, 0x4000_0000];
        let claim = image_of([word, 0, 0, 0, 0, 0, 0, 0]);
        say(rt, check_claim(&a, &b, &claim))?;
    }
    Ok(())
}

fn say(rt: &impl Print, answer: Result<(), Refusal>) -> io::Result<()> {
    let number = number_of(answer);
    println!(rt; "{number}")
}
