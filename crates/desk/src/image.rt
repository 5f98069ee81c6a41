// The image: 64 bytes, word 0 first, each word high byte first.
ghost use Rattle.std.specs.Prelude.{◌≡◌, ◌+◌, ◌-◌, ◌*◌, ◌/◌, ◌%◌, ◌^◌, ◌≤◌, ◌<◌, length};
ghost use Rattle.posit.specs.Digits.{number};
ghost use Rattle.posit.specs.Accumulator.{words, from_words, image};
ghost use Rattle.desk.specs.Desk.{length_refusal, buffer_refusal, written_to, read_into};
ghost use Rattle.quire_words.specs.Words.{wide};
ghost use Rattle.desk.specs.Answers.{number_of, after};
ghost use Rattle.posit.proofs.Digits.{Prefix};

use super::refusal::Refusal;
use std::array;

// The length of an image, in bytes.
pub const IMAGE_LENGTH: usize = 64;

pub fn image_of(q: [u64; 8]) -> [u8; 64]
    ensures { result ≡ image 512 (from_words 512 q) }
{
    array::from_fn(|i| byte_at(q, i))
}

// Byte i of the image.
fn byte_at(q: [u64; 8], i: usize) -> u8
    requires { i < 64 }
    ensures { result ≡ wide q / 256 ^ (63 - i) % 256 }
{
    q[i / 8].to_be_bytes()[i % 8]
}

// Into the first 64 bytes of a buffer.
pub fn write_image(q: [u64; 8], buffer: &mut [u8]) -> Result<(), Refusal>
    ensures { (number_of result ≡ buffer_refusal 512 buffer.old) × (buffer.new ≡ written_to 512 (from_words 512 q) buffer.old) }
{
    if buffer.len() < IMAGE_LENGTH {
        return Err(Refusal::BufferTooShort);
    }
    let image = image_of(q);
    buffer[..IMAGE_LENGTH].copy_from_slice(&image);
    Ok(())
}

// Any 64 bytes are one state. `q` is what a caller is left with where the reading is refused: the contract speaks of it, and the code need not read it.
pub fn read_image(q: [u64; 8], bytes: &[u8]) -> Result<[u64; 8], Refusal>
    ensures { (number_of result ≡ length_refusal 512 bytes.now) × (after 512 (from_words 512 q) result ≡ words 512 (read_into 512 (from_words 512 q) bytes.now)) }
{
    if bytes.len() != IMAGE_LENGTH {
        return Err(Refusal::WrongLength);
    }
    Ok(words_of(bytes))
}

fn words_of(bytes: &[u8]) -> [u64; 8]
    requires { length bytes.now ≡ 64 }
    ensures { wide result ≡ number 256 bytes.now }
{
    array::from_fn(|j| word_at(bytes, 8 * j))
}

// The eight bytes from `at` on, as a word.
fn word_at(bytes: &[u8], at: usize) -> u64
    requires { at + 8 ≤ length bytes.now }
    ensures { Prefix 256 bytes.now at 8 result }
{
    u64::from_be_bytes(*bytes[at..].first_chunk().unwrap())
}
