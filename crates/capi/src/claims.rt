// The desk: the number of the refusal is the answer, 0 for none. What was lent is as it was wherever a number is answered, and nothing is stored there. Two entries take an
// accumulator's words and store the answer's each by itself: a closure over the `&mut` in the place of the call would need clauses of its own. `Q32E2(*q).to_bits()` is `*q`: of what
// a call gives, the check knows that it is eight words of 64 bits, as the words that a refusal leaves have to be (docs/DECISIONS.md).
ghost use Rattle.std.specs.Prelude.{◌≡◌};
ghost use Rattle.posit.specs.Accumulator.{words, from_words};
ghost use Rattle.desk.specs.Desk.{length_refusal, buffer_refusal, batch_refusal, claim_refusal, written_to, read_into, after_batch};

use desk::batch::add_batch;
use desk::claim::check_claim;
use desk::image::{read_image, write_image};
use desk::refusal::number_of;
use quire32::Q32E2;

#[unsafe(no_mangle)]
pub extern "C" fn stallhitch_write_image(q: &[u64; 8], buffer: &mut [u8]) -> u32
    ensures { (result ≡ buffer_refusal 512 buffer.old) × (buffer.new ≡ written_to 512 (from_words 512 q.now) buffer.old) }
{
    number_of(write_image(*q, buffer))
}

#[unsafe(no_mangle)]
pub extern "C" fn stallhitch_read_image(q: &mut [u64; 8], bytes: &[u8]) -> u32
    ensures { (result ≡ length_refusal 512 bytes.now) × (q.new ≡ words 512 (read_into 512 (from_words 512 q.old) bytes.now)) }
{
    match read_image(Q32E2(*q).to_bits(), bytes) {
        Ok(words) => {
            *q = words;
            0
        }
        Err(refusal) => refusal.number(),
    }
}

#[unsafe(no_mangle)]
pub extern "C" fn stallhitch_add_batch(q: &mut [u64; 8], a: &[u32], b: &[u32]) -> u32
    ensures { (result ≡ batch_refusal a.now b.now) × (q.new ≡ words 512 (after_batch 2 31 512 (from_words 512 q.old) a.now b.now)) }
{
    match add_batch(Q32E2(*q).to_bits(), a, b) {
        Ok(words) => {
            *q = words;
            0
        }
        Err(refusal) => refusal.number(),
    }
}

#[unsafe(no_mangle)]
pub extern "C" fn stallhitch_check_claim(a: &[u32], b: &[u32], claim: &[u8]) -> u32
    ensures { result ≡ claim_refusal 2 31 512 a.now b.now claim.now }
{
    number_of(check_claim(a, b, claim))
}
