// A line's arguments, field after field. What isn't of a field's form refuses the line.
ghost use Rattle.std.specs.Prelude.{◌≤◌, IfOk, length};

use crate::error::LineError;
use crate::position::Named;
use crate::results::trimmed;
use serial::{Receiver, STORED_SIZE};
use std::str::Split;

// The most bytes that an argument, or a lent output, may have.
pub(crate) const LONGEST: usize = 2048;

// Room for an argument's bytes. It is made here alone: an array that is made where it is lent is counted out by the proof.
pub(crate) fn no_bytes() -> [u8; LONGEST] {
    [0; LONGEST]
}

// The highest number that a field may hold.
const HIGHEST: usize = 99999;

// The fields that are left.
#[derive(Drop)]
pub(crate) struct Fields<'a> {
    left: Split<'a, char>,
}

impl<'a> Fields<'a> {
    // Those of a text in which one space stands between two, behind the first one, which names the call.
    pub(crate) fn behind_name(text: &'a str) -> Result<Fields<'a>, LineError> {
        let mut fields = Fields {
            left: text.split(' '),
        };
        fields.field()?;
        Ok(fields)
    }

    // The next field.
    fn field(&mut self) -> Result<&'a str, LineError> {
        self.left.next().ok_or(LineError::NotOfForm)
    }

    // That no field is left.
    pub(crate) fn end(mut self) -> Result<(), LineError> {
        match self.left.next() {
            None => Ok(()),
            Some(_) => Err(LineError::NotOfForm),
        }
    }

    // Bytes, `-` for none, which stand at the room's start.
    pub(crate) fn bytes<'r>(&mut self, room: &'r mut [u8; LONGEST]) -> Result<&'r [u8], LineError> {
        let count = read_bytes(self.field()?, room)?;
        Ok(&room[..count])
    }

    // A number.
    pub(crate) fn number(&mut self) -> Result<usize, LineError> {
        read_number(self.field()?, HIGHEST)
    }

    // The room of a lent output.
    pub(crate) fn room(&mut self) -> Result<usize, LineError>
        ensures { IfOk result (λ room. room ≤ 2048) }
    {
        read_number(self.field()?, LONGEST)
    }

    // A byte or an address, two hex digits.
    pub(crate) fn byte(&mut self) -> Result<u8, LineError> {
        let mut one = [0];
        match text::read_hex(self.field()?.as_bytes(), &mut one) {
            Some(1) => Ok(one[0]),
            _ => Err(LineError::NotOfForm),
        }
    }

    // Whether a frame has a PEC.
    pub(crate) fn pec(&mut self) -> Result<bool, LineError> {
        match self.field()? {
            "plain" => Ok(false),
            "pec" => Ok(true),
            _ => Err(LineError::NotOfForm),
        }
    }

    // A receiver's state: its position, count, length, and stored bytes without the zeros at their end.
    pub(crate) fn state(&mut self) -> Result<Receiver, LineError> {
        let position = self.field()?.parse::<Named>()?;
        let count = self.number()?;
        let len = self.number()?;
        let mut stored = [0; STORED_SIZE];
        let kept = read_bytes(self.field()?, &mut stored)?;
        if trimmed(&stored).len() != kept {
            return Err(LineError::NotOfForm);
        }
        Ok(Receiver {
            position: position.0,
            count,
            len,
            stored,
        })
    }
}

// Puts the bytes of a field at the room's start, and says how many they are: a count and no slice, since one caller keeps the bytes in the receiver's array.
fn read_bytes(field: &str, room: &mut [u8]) -> Result<usize, LineError>
    ensures { IfOk result (λ count. count ≤ length room.new) }
{
    match field {
        "-" => Ok(0),
        "" => Err(LineError::NotOfForm),
        _ => text::read_hex(field.as_bytes(), room).ok_or(LineError::NotOfForm),
    }
}

// The number of a field, up to the most.
fn read_number(field: &str, most: usize) -> Result<usize, LineError>
    ensures { IfOk result (λ number. number ≤ most) }
{
    text::read_decimal(field.as_bytes())
        .and_then(|n| usize::try_from(n).ok())
        .filter(|n| *n <= most)
        .ok_or(LineError::NotOfForm)
}
