// Decimal, out and in: no zero in front of a number.
ghost use Rattle.std.specs.Prelude.{◌≡◌, length};
ghost use Rattle.io.specs.Counts.{IsPrefixLen};
ghost use Rattle.text.specs.Decimal.{decimal};
ghost use Rattle.text.specs.Put.{put_end, put_text};
ghost use Rattle.text.specs.Read.{decimal_read, starts_number};

use crate::digits::digit_value;
use crate::plain::put;

// Puts the number in decimal from `place` on and answers the place behind it. Where it does not fit it writes nothing and answers the output's length.
#[tactic(auto, using(crate::proofs::DecimalLaws::same_digits))]
pub fn put_decimal(n: u64, out: &mut [u8], place: usize) -> usize
    ensures value { result ≡ put_end place (decimal n) (length out.old) }
    ensures out_after { out.new ≡ put_text place (decimal n) out.old }
    ensures prefix_len { IsPrefixLen result out.new }
{
    let mut digits = [0u8; 20];
    let size = io::decimal(n, &mut digits);
    put(&digits[..size], out, place)
}

// Whether the text begins as a number does: it has one byte, or its first one is no zero.
#[tactic(auto, unfolding(crate::specs::Read::starts_number))]
fn starts_number(text: &[u8]) -> bool
    ensures { result ≡ starts_number text.now }
{
    match text {
        [] => false,
        [_] => true,
        [first, ..] => *first != b'0',
    }
}

// Reads a decimal text: digits, at least one, and no zero in front of another digit. Any other text, and one whose number has more than 64 bits, is
// refused: no number.
pub fn read_decimal(text: &[u8]) -> Option<u64>
    ensures { result ≡ decimal_read text.now }
{
    if !starts_number(text) {
        return None;
    }
    let mut value: u64 = 0;
    for c in text {
        let d = digit_value(10, *c)?;
        value = value.checked_mul(10)?.checked_add(u64::from(d))?;
    }
    Some(value)
}
