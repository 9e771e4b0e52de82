// A digit's ASCII code and its value.
ghost use Rattle.std.specs.Prelude.{◌≤◌, ◌<◌, ◌≡◌};
ghost use Rattle.io.specs.Digits.{hex_digit_ascii};
ghost use Rattle.text.specs.Read.{all_digits, digit_in};

// What a letter's ASCII code has beyond its value: `a` is 10.
const BEFORE_LETTERS: u8 = b'a' - 10;

// The ASCII code of a digit below 16.
pub(crate) fn digit(d: u8) -> u8
    requires { d < 16 }
    ensures { result ≡ hex_digit_ascii d }
{
    if d < 10 {
        return b'0' + d;
    }
    BEFORE_LETTERS + d
}

// The value of a digit below the base.
#[tactic(auto, unfolding(crate::specs::Read::digit_value))]
pub(crate) fn digit_value(base: u8, c: u8) -> Option<u8>
    requires { base ≤ 16 }
    ensures { result ≡ digit_in base c }
{
    let value = match c {
        b'0'..=b'9' => c - b'0',
        b'a'..=b'f' => c - BEFORE_LETTERS,
        _ => return None,
    };
    (value < base).then_some(value)
}

// Whether all bytes of the text are digits below the base.
pub(crate) fn all_digits(base: u8, text: &[u8]) -> bool
    requires { base ≤ 16 }
    ensures { result ≡ all_digits base text.now }
{
    text.iter().all(|c| digit_value(base, *c).is_some())
}
