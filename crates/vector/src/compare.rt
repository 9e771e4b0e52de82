// A vector replayed, and compared with what is stored.
ghost use Rattle.std.specs.Prelude.{◌≡◌, ◌∷◌, ◌++◌, Contains, IfSome, IsNone};

use crate::call::Call;
use crate::disagreement::Disagreement;
use crate::error::LineError;
use crate::fields::Fields;
use std::{fmt, str};

// No call has more ways to replay it. It is a number, since `replay`'s parameter is one: an enum would be a narrower type.
pub const WAYS: usize = 4;

// Replays the line's vector in one of the ways, which are counted from 0. In a way that its call doesn't have it agrees. A line that isn't of its call's form
// does not agree, and one that names no call does not in the first way.
pub fn replay(line: &[u8], way: usize) -> Result<(), Disagreement<'_>> {
    let calls = Call::named(name(line));
    match calls.get(way) {
        Some(call) => replay_by(*call, line),
        None if calls.is_empty() && way == 0 => Err(Disagreement::NOT_OF_FORM),
        None => Ok(()),
    }
}

// The name of the line's call; none where it isn't text.
fn name(line: &[u8]) -> &str {
    let (name, _) = split_once(line, b' ').unwrap_or((line, &[]));
    str::from_utf8(name).unwrap_or("")
}

// Whether the call gives what is stored.
fn replay_by(call: Call, line: &[u8]) -> Result<(), Disagreement<'_>> {
    let Some((text, stored)) = halves(line) else {
        return Err(Disagreement::NOT_OF_FORM);
    };
    let mut expected = Expected { left: Some(stored) };
    match write_results(&mut expected, call, text) {
        Ok(()) if expected.left.is_some_and(|left| left.is_empty()) => Ok(()),
        Err(LineError::NotOfForm) => Err(Disagreement::NOT_OF_FORM),
        Ok(()) | Err(LineError::Unwritten) => Err(Disagreement::new(call, text, stored)),
    }
}

// Writes the results of the call with the arguments of the text, which is the line's before its sign `=`.
pub(crate) fn write_results<W: fmt::Write>(
    to: &mut W,
    call: Call,
    text: &str,
) -> Result<(), LineError> {
    let mut fields = Fields::behind_name(text)?;
    call.write_results(to, &mut fields)?;
    fields.end()
}

// What is stored and not written yet; none once something else was written. It takes what differs too, since a line is first to be of its form.
#[derive(Clone, Copy, Debug, PartialEq, Eq)]
struct Expected<'a> {
    left: Option<&'a [u8]>,
}

impl fmt::Write for Expected<'_> {
    fn write_str(&mut self, s: &str) -> fmt::Result {
        self.left = match self.left {
            Some(left) => left.strip_prefix(s.as_bytes()),
            None => None,
        };
        Ok(())
    }
}

// The line before the sign `=`, which is a field of its own, and behind it.
fn halves(line: &[u8]) -> Option<(&str, &[u8])> {
    let (before, stored) = split_once(line, b'=')?;
    let text = str::from_utf8(before).ok()?.strip_suffix(' ')?;
    match stored.first() {
        None | Some(b' ') => Some((text, stored)),
        Some(_) => None,
    }
}

// The parts of a text before and behind the first place at which the byte stands; none where it stands at none.
fn split_once(text: &[u8], byte: u8) -> Option<(&[u8], &[u8])>
    ensures parts { IfSome result (λ parts. text.now ≡ parts.0.now ++ byte ∷ parts.1.now) }
    ensures first { IfSome result (λ parts. ¬ (Contains parts.0.now byte)) }
    ensures none { IsNone result → ¬ (Contains text.now byte) }
{
    let place = text.iter().position(|b| *b == byte)?;
    let (before, rest) = text.split_at(place);
    Some((before, &rest[1..]))
}
