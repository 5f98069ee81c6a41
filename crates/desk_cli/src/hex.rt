// Hexadecimal text: digits of either case, and what they spell.
ghost use Rattle.std.specs.Prelude.{◌<◌, ◌≤◌, Some};
ghost use Rattle.desk_cli.specs.Hex.{DigitOf};

// The value of a hexadecimal digit of either case.
pub(crate) fn digit(c: u8) -> Option<u32>
    ensures { DigitOf c result }
{
    char::from(c).to_digit(16)
}

// The lower-case digit of a value below 16.
pub(crate) fn glyph(d: u8) -> char
    requires { d < 16 }
    ensures value { DigitOf result (Some d) }
    ensures lower { 10 ≤ d → 97 ≤ result }
{
    char::from(if d < 10 { b'0' + d } else { b'a' - 10 + d })
}

// The number that up to eight digits spell.
pub(crate) fn number(digits: &[u8]) -> Option<u32> {
    digits.iter().try_fold(0, |n, c| Some(n << 4 | digit(*c)?))
}

// The byte that two digits spell.
pub(crate) fn byte(digits: &[u8; 2]) -> Option<u8> {
    u8::try_from(number(digits)?).ok()
}
