// The desk on the command line: text in on standard input, text out on standard output.
//
// The input has one item to a line:
//
//     claim                 first line: `claim` to check a claim, `image` to write the image of the batch
//     AAAAAAAA BBBBBBBB     each line after it: a pair of patterns, eight hexadecimal digits each, one space between
//     = HHHH..              for `claim` alone, last line: the claim, two hexadecimal digits to a byte
//
// Digits are of either case. The last line may lack its line end. A text of more than 400,000 bytes is refused.
//
// The output is one line: `right`, or the number of the refusal and its reason; the image in 128 digits; or what is wrong with the input, and in which line.
// What is answered comes from `desk`: `check_claim` for a claim, `add_batch` from zero and `image_of` for an image.
#![tactic(auto)]

ghost use Rattle.std.specs.Prelude.{◌≤◌, IfOk, vec_len};

use desk::batch::add_batch;
use desk::claim::check_claim;
use desk::image::image_of;
use std::alloc::Global;
use std::io;
use std::io::Read;

mod hex; // hex.rt: what hexadecimal digits spell
mod lines; // lines.rt: lines, pairs, the claim's bytes
mod words; // words.rt: what is printed

use lines::{bytes_of, first_line, pairs_of};
use words::{Answer, Fault, Trouble};

// The length of the longest text, in bytes.
const TEXT_LIMIT: usize = 400_000;

fn main(rt: HostRuntime) -> io::Result<()> {
    let answered = answer(rt.alloc(), &mut rt.reader());
    match answered {
        Ok(answer) => println!(rt; "{answer}"),
        Err(trouble) => println!(rt; "{trouble}"),
    }
}

fn answer(alloc: Global, input: &mut impl Read) -> Result<Answer, Trouble> {
    let text = read_text(alloc, input)?;
    let (word, items) = first_line(text.as_slice());
    match word {
        b"claim" => judged(alloc, items),
        b"image" => imaged(alloc, items),
        _ => Err(Fault::NoWord.in_line(1)),
    }
}

// The input to its end, or to one byte more than the longest text. A failed read is no end: a batch would be cut short.
fn read_text(alloc: Global, input: &mut impl Read) -> Result<Vec<u8>, Trouble>
    ensures { IfOk result (λ text. vec_len text ≤ 400000) }
{
    let mut text = Vec::with_capacity(alloc, TEXT_LIMIT + 1)?;
    let n = input.take(TEXT_LIMIT as u64 + 1).read_to_end(&mut text)?;
    if n > TEXT_LIMIT {
        return Err(Trouble::TooLong);
    }
    Ok(text)
}

// The image of a batch that is added from zero.
fn imaged(alloc: Global, items: &[u8]) -> Result<Answer, Trouble> {
    let (a, b, rest) = pairs_of(alloc, items)?;
    if !rest.is_empty() {
        return Err(Fault::NotPair.in_line(a.len() + 2));
    }
    let q = add_batch([0; 8], a.as_slice(), b.as_slice())?;
    Ok(Answer::Image(image_of(q)))
}

// A claim, in the line behind the pairs.
fn judged(alloc: Global, items: &[u8]) -> Result<Answer, Trouble> {
    let (a, b, rest) = pairs_of(alloc, items)?;
    let number = a.len() + 2;
    if rest.is_empty() {
        return Err(Fault::NoClaim.in_line(number));
    }
    let (line, after) = first_line(rest);
    let digits = line
        .strip_prefix(b"= ")
        .ok_or(Fault::NotClaim.in_line(number))?;
    let claim = bytes_of(alloc, digits)?.ok_or(Fault::NotBytes.in_line(number))?;
    if !after.is_empty() {
        return Err(Fault::TextAfterClaim.in_line(number + 1));
    }
    check_claim(a.as_slice(), b.as_slice(), claim.as_slice())?;
    Ok(Answer::Right)
}
