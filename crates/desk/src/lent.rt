// The same for an accumulator that is lent: the function over its words is called, and what comes back is stored. Both stand, since thin entries over one core are a form that is owed
// (docs/DECISIONS.md).
ghost use Rattle.std.specs.Prelude.{◌≡◌};
ghost use Rattle.posit.specs.Accumulator.{words, from_words};
ghost use Rattle.desk.specs.Desk.{length_refusal, buffer_refusal, batch_refusal, written_to, read_into, after_batch};
ghost use Rattle.desk.specs.Answers.{number_of};

use super::refusal::Refusal;
use super::{batch, image};
use quire32::Q32E2;

pub fn write_image(q: &Q32E2, buffer: &mut [u8]) -> Result<(), Refusal>
    ensures { (number_of result ≡ buffer_refusal 512 buffer.old) × (buffer.new ≡ written_to 512 (from_words 512 q.now.0) buffer.old) }
{
    image::write_image(q.0, buffer)
}

pub fn read_image(q: &mut Q32E2, bytes: &[u8]) -> Result<(), Refusal>
    ensures { (number_of result ≡ length_refusal 512 bytes.now) × (q.new.0 ≡ words 512 (read_into 512 (from_words 512 q.old.0) bytes.now)) }
{
    q.0 = image::read_image(q.to_bits(), bytes)?;
    Ok(())
}

pub fn add_batch(q: &mut Q32E2, a: &[u32], b: &[u32]) -> Result<(), Refusal>
    ensures { (number_of result ≡ batch_refusal a.now b.now) × (q.new.0 ≡ words 512 (after_batch 2 31 512 (from_words 512 q.old.0) a.now b.now)) }
{
    q.0 = batch::add_batch(q.to_bits(), a, b)?;
    Ok(())
}
