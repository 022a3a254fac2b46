// Numbers that are written in decimal digits.
#![tactic(auto)]

ghost use Rattle.std.specs.Prelude.{◌≡◌};
ghost use Rattle.numerals.specs.Numerals.{number_of, digits_of};

// The number that a text writes in decimal digits; one too large for 64 bits is read as the largest. No answer where the text is empty or
// holds anything but digits.
pub fn number(text: &[u8]) -> Option<u64>
    ensures { result ≡ number_of text.now }
{
    if text.is_empty() {
        return None;
    }
    read_digits(text)
}

fn read_digits(text: &[u8]) -> Option<u64>
    ensures { result ≡ digits_of text.now }
{
    let mut value = 0u64;
    for byte in text {
        if !byte.is_ascii_digit() {
            return None;
        }
        value = value
            .saturating_mul(10)
            .saturating_add(u64::from(*byte - b'0'));
    }
    Some(value)
}
