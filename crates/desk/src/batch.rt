// A batch: the exact product of each pair of two lists, added from the front. The range is judged after each pair.
ghost use Rattle.std.specs.Prelude.{◌≡◌, length};
ghost use Rattle.posit.specs.Accumulator.{plus, of_product, words, from_words};
ghost use Rattle.desk.specs.Batch.{batch};
ghost use Rattle.desk.specs.Desk.{batch_refusal, after_batch};
ghost use Rattle.desk.specs.Answers.{number_of, after};

use super::refusal::Refusal;
use p32e2::P32E2;
use quire_steps::add_product;

// The greatest number of pairs that a batch may have.
pub const PAIR_LIMIT: usize = 16384;

// Two lists, and no list of pairs: that they differ in length is a refusal, and C lends two.
pub fn add_batch(q: [u64; 8], a: &[u32], b: &[u32]) -> Result<[u64; 8], Refusal>
    ensures { (number_of result ≡ batch_refusal a.now b.now) × (after 512 (from_words 512 q) result ≡ words 512 (after_batch 2 31 512 (from_words 512 q) a.now b.now)) }
{
    admitted(a, b)?;
    Ok(sum_of(q, a, b))
}

// Lists of one length, and no more pairs than a batch may have.
pub(crate) fn admitted(a: &[u32], b: &[u32]) -> Result<(), Refusal>
    ensures { number_of result ≡ batch_refusal a.now b.now }
{
    if a.len() != b.len() {
        return Err(Refusal::UnequalLists);
    }
    if PAIR_LIMIT < a.len() {
        return Err(Refusal::TooManyPairs);
    }
    Ok(())
}

// The products of lists of one length, added up.
pub(crate) fn sum_of(q: [u64; 8], a: &[u32], b: &[u32]) -> [u64; 8]
    requires { length a.now ≡ length b.now }
    ensures { result ≡ words 512 (batch 2 31 512 (from_words 512 q) a.now b.now) }
{
    a.iter().zip(b).fold(q, with_pair)
}

// The words after one pair more. It has a name, since of a closure that takes and gives an array the check infers no clause.
fn with_pair(r: [u64; 8], pair: (&u32, &u32)) -> [u64; 8]
    ensures { result ≡ words 512 (plus 512 (from_words 512 r) (of_product 2 31 pair.entry.0.now pair.entry.1.now)) }
{
    let (x, y) = pair;
    add_product(r, P32E2::from_bits(*x), P32E2::from_bits(*y))
}
