// A claim against a batch: nothing of the claim is parsed. The batch is run from zero, its image is formed in memory of its own, and all 64 bytes are compared.
ghost use Rattle.std.specs.Prelude.{◌≡◌, length};
ghost use Rattle.posit.specs.Digits.{same};
ghost use Rattle.desk.specs.Desk.{claim_refusal};
ghost use Rattle.desk.specs.Answers.{number_of};

use super::batch::{admitted, sum_of};
use super::image::{IMAGE_LENGTH, image_of};
use super::refusal::Refusal;

pub fn check_claim(a: &[u32], b: &[u32], claim: &[u8]) -> Result<(), Refusal>
    ensures { number_of result ≡ claim_refusal 2 31 512 a.now b.now claim.now }
{
    admitted(a, b)?;
    if claim.len() != IMAGE_LENGTH {
        return Err(Refusal::WrongLength);
    }
    let rebuilt = image_of(sum_of([0; 8], a, b));
    if !is_same(rebuilt, claim) {
        return Err(Refusal::Differs);
    }
    Ok(())
}

// Every byte is compared, whatever the first ones say: `==` of two slices may leave off where they differ.
fn is_same(image: [u8; 64], claim: &[u8]) -> bool
    requires { length claim.now ≡ 64 }
    ensures { result ≡ same image claim.now }
{
    image
        .iter()
        .zip(claim)
        .fold(true, |equal, (x, y)| equal & (x == y))
}
