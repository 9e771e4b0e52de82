// How results are written: as fields, each with a space before it. Hex and decimal are `text`'s.
use crate::position::Named;
use serial::Receiver;
use std::{fmt, str};

// How many bytes are put as hex at a time.
const PIECE: usize = 32;

// Writes the text that `text` put at a room's start.
fn write_put<W: fmt::Write>(f: &mut fmt::Formatter<W>, put: &[u8]) -> fmt::Result {
    f.write_str(str::from_utf8(put).map_err(|_| fmt::Error)?)
}

// Bytes, `-` for none.
#[derive(Clone, Copy, Debug, PartialEq, Eq)]
pub(crate) struct Hex<'a>(pub(crate) &'a [u8]);

impl<'a> fmt::Display for Hex<'a> {
    fn fmt<W: fmt::Write>(&self, f: &mut fmt::Formatter<W>) -> fmt::Result {
        if self.0.is_empty() {
            return f.write_str("-");
        }
        let mut room = [0u8; 2 * PIECE];
        for bytes in self.0.chunks(PIECE) {
            let end = text::put_hex(bytes, &mut room, 0);
            write_put(f, &room[..end])?;
        }
        Ok(())
    }
}

// A number.
#[derive(Clone, Copy, Debug, PartialEq, Eq)]
pub(crate) struct Decimal(pub(crate) usize);

impl fmt::Display for Decimal {
    fn fmt<W: fmt::Write>(&self, f: &mut fmt::Formatter<W>) -> fmt::Result {
        let mut room = [0u8; 20];
        let end = text::put_decimal(self.0 as u64, &mut room, 0);
        write_put(f, &room[..end])
    }
}

// A number that is given, or `-`.
#[derive(Clone, Copy, Debug, PartialEq, Eq)]
pub(crate) struct Given(pub(crate) Option<usize>);

impl fmt::Display for Given {
    fn fmt<W: fmt::Write>(&self, f: &mut fmt::Formatter<W>) -> fmt::Result {
        match self.0 {
            Some(n) => Decimal(n).fmt(f),
            None => f.write_str("-"),
        }
    }
}

// An answer's number: 0 where it is done, or the refusal's.
pub(crate) fn number_of<T: Drop, E: Into<u32>>(answer: Result<T, E>) -> Decimal {
    match answer {
        Ok(_) => Decimal(checks::DONE as usize),
        Err(e) => {
            let number: u32 = e.into();
            Decimal(number as usize)
        }
    }
}

// NUMBER LENGTH of an answer: its number, and the length that comes with it.
#[derive(Clone, Copy, Debug, PartialEq, Eq)]
pub(crate) struct Answer {
    number: Decimal,
    length: Given,
}

impl Answer {
    pub(crate) fn of<E: Into<u32> + Copy>(answer: Result<usize, E>) -> Answer {
        Answer {
            number: number_of(answer),
            length: Given(answer.ok()),
        }
    }
}

impl fmt::Display for Answer {
    fn fmt<W: fmt::Write>(&self, f: &mut fmt::Formatter<W>) -> fmt::Result {
        let number = self.number;
        let length = self.length;
        write!(f, "{number} {length}")
    }
}

// STATE
#[derive(Clone, Copy, Debug, PartialEq, Eq)]
pub(crate) struct State(pub(crate) Receiver);

impl fmt::Display for State {
    fn fmt<W: fmt::Write>(&self, f: &mut fmt::Formatter<W>) -> fmt::Result {
        let position = Named(self.0.position);
        let count = Decimal(self.0.count);
        let len = Decimal(self.0.len);
        let stored = Hex(trimmed(&self.0.stored));
        write!(f, "{position} {count} {len} {stored}")
    }
}

// The bytes without the zeros at their end.
pub(crate) fn trimmed(bytes: &[u8]) -> &[u8] {
    match bytes.iter().rposition(|b| *b != 0) {
        Some(last) => &bytes[..last + 1],
        None => &[],
    }
}

// PACKETS: PLACE:HEX of each, with commas between them, `-` for none.
#[derive(Clone, Copy, Debug, PartialEq, Eq)]
pub(crate) struct Packets {
    is_first: bool,
}

impl Packets {
    // Before the first one.
    pub(crate) fn begin<W: fmt::Write>(to: &mut W) -> Result<Packets, fmt::Error> {
        to.write_str(" ")?;
        Ok(Packets { is_first: true })
    }

    // The next one.
    pub(crate) fn write<W: fmt::Write>(
        &mut self,
        to: &mut W,
        place: usize,
        packet: &[u8],
    ) -> fmt::Result {
        let comma = if self.is_first { "" } else { "," };
        self.is_first = false;
        let place = Decimal(place);
        let packet = Hex(packet);
        write!(to, "{comma}{place}:{packet}")
    }

    // Behind the last one.
    pub(crate) fn end<W: fmt::Write>(self, to: &mut W) -> fmt::Result {
        if self.is_first {
            return to.write_str("-");
        }
        Ok(())
    }
}
