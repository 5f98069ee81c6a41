// The lines of the input, and what they spell.
ghost use Rattle.std.specs.Prelude.{◌≡◌, ◌+◌, ◌*◌, ◌≤◌, drop, length, IfOk, IfSome, vec_len};
ghost use Rattle.desk_cli.specs.Lines.{IsFirstLine, IsBehind};

use super::hex;
use std::alloc::{AllocError, Global};

// How long the line of a pair is, without its end.
const PAIR_LENGTH: usize = 17;

// The first line, without its end, which the last may lack, and what follows it.
pub(crate) fn first_line(text: &[u8]) -> (&[u8], &[u8])
    ensures { IsFirstLine text.now result.0.now result.1.now }
{
    match text.iter().position(|c| *c == b'\n') {
        Some(end) => (&text[..end], &text[end + 1..]),
        None => (text, &[]),
    }
}

// The pairs that the first lines spell, up to a line that spells none, as two lists, and the text from that line on. Where there is a pair, the lists have room from the beginning
// for as many as a text of this length can have.
pub(crate) fn pairs_of(
    alloc: Global,
    text: &[u8],
) -> Result<(Vec<u32>, Vec<u32>, &[u8]), AllocError>
    ensures within { IfOk result (λ read. 17 * vec_len read.0 + length read.2.now ≤ length text.now) }
    ensures one_length { IfOk result (λ read. vec_len read.1 ≡ vec_len read.0) }
    ensures rest { IfOk result (λ read. read.2.now ≡ drop (18 * vec_len read.0) text.now) }
{
    let room = match first_pair(text) {
        Some(_) => text.len() / (PAIR_LENGTH + 1) + 1,
        None => 0,
    };
    let mut a = Vec::with_capacity(alloc, room)?;
    let mut b = Vec::with_capacity(alloc, room)?;
    let mut rest = text;
    while let Some((x, y, behind)) = first_pair(rest) {
        a.push(x)?;
        b.push(y)?;
        rest = behind;
    }
    Ok((a, b, rest))
}

// The pair that the first line spells, and what follows the line. A pair's line is of one length, so that its end is not looked for.
pub(crate) fn first_pair(text: &[u8]) -> Option<(u32, u32, &[u8])>
    ensures end { IfSome result (λ read. IsBehind text.now 17 read.2.now) }
    ensures rest { IfSome result (λ read. read.2.now ≡ drop 18 text.now) }
    ensures shorter { IfSome result (λ read. 17 + length read.2.now ≤ length text.now) }
{
    let (a, b) = pair_of(text.get(..PAIR_LENGTH)?)?;
    match text.get(PAIR_LENGTH) {
        Some(b'\n') => Some((a, b, &text[PAIR_LENGTH + 1..])),
        Some(_) => None,
        None => Some((a, b, &[])),
    }
}

// Eight digits, a space and eight digits.
fn pair_of(line: &[u8]) -> Option<(u32, u32)> {
    let (a, rest) = line.split_first_chunk::<8>()?;
    let b = rest.strip_prefix(b" ")?.as_array::<8>()?;
    Some((hex::number(a)?, hex::number(b)?))
}

// The bytes of a claim, two digits to a byte, where the digits spell bytes.
pub(crate) fn bytes_of(alloc: Global, digits: &[u8]) -> Result<Option<Vec<u8>>, AllocError> {
    let (pairs, []) = digits.as_chunks::<2>() else {
        return Ok(None);
    };
    let mut bytes = Vec::with_capacity(alloc, pairs.len())?;
    for two in pairs {
        let Some(byte) = hex::byte(two) else {
            return Ok(None);
        };
        bytes.push(byte)?;
    }
    Ok(Some(bytes))
}
