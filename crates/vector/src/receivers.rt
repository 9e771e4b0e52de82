// The calls to a serial receiver.
ghost use Rattle.std.specs.Prelude.{◌<◌};

use crate::call::Feeding;
use crate::calls;
use crate::error::LineError;
use crate::fields::{Fields, LONGEST, no_bytes};
use crate::results::{Decimal, Given, Hex, Packets, State, number_of};
use serial::{Receiver, Stop};
use std::fmt;

// `step STATE BYTE`: CONSISTENT NUMBER LENGTH STATE.
pub(crate) fn step<W: fmt::Write>(to: &mut W, fields: &mut Fields) -> Result<(), LineError> {
    let state = fields.state()?;
    let b = fields.byte()?;
    let consistent = if state.consistent() { "yes" } else { "no" };
    let stepped = state.step(b);
    let number = number_of(stepped.outcome);
    let length = Given(stepped.outcome.ok().flatten());
    let after = State(stepped.state);
    write!(to, " {consistent} {number} {length} {after}")?;
    Ok(())
}

// `take STATE INPUT ALLOWANCE ROOM`: NUMBER REASON LENGTH TAKEN STATE OUT.
pub(crate) fn take<W: fmt::Write>(to: &mut W, fields: &mut Fields) -> Result<(), LineError> {
    let state = fields.state()?;
    let mut held = no_bytes();
    let input = fields.bytes(&mut held)?;
    let allowance = fields.number()?;
    let room = fields.room()?;
    let mut out = calls::filled();
    let out = &mut out[..room];
    let taken = state.take(input, allowance, out);
    let number = number_of(taken.reason);
    let (reason, length) = match taken.reason {
        Ok(Stop::Packet(n)) => ("packet", Some(n)),
        Ok(Stop::InputEnded) => ("input-ended", None),
        Ok(Stop::AllowanceSpent) => ("allowance-spent", None),
        Err(_) => ("-", None),
    };
    let length = Given(length);
    let count = Decimal(taken.taken);
    let after = State(taken.state);
    let out = Hex(out);
    write!(to, " {number} {reason} {length} {count} {after} {out}")?;
    Ok(())
}

// `feed STREAM`: PACKETS STATE, of a fresh receiver that is fed the stream.
pub(crate) fn feed<W: fmt::Write>(
    to: &mut W,
    fields: &mut Fields,
    feeding: Feeding,
) -> Result<(), LineError> {
    let mut held = no_bytes();
    let stream = fields.bytes(&mut held)?;
    let state = match feeding {
        Feeding::ByteByByte => by_step(to, stream)?,
        Feeding::InOneCall => by_take(to, stream, LONGEST, LONGEST)?,
        Feeding::ByteACall => by_take(to, stream, 1, 1)?,
        Feeding::InPieces => by_take(to, stream, 7, 5)?,
    };
    let state = State(state);
    write!(to, " {state}")?;
    Ok(())
}

// By steps: PACKETS, and the state at the end. A refusal, which never comes, is put as a packet, and no stored text has it.
fn by_step<W: fmt::Write>(to: &mut W, stream: &[u8]) -> Result<Receiver, fmt::Error> {
    let mut state = Receiver::fresh();
    let mut packets = Packets::begin(to)?;
    for (place, b) in stream.iter().enumerate() {
        let stepped = state.step(*b);
        state = stepped.state;
        match stepped.outcome {
            Ok(None) => {}
            Ok(Some(n)) => packets.write(to, place, first(&state.stored[2..], n))?,
            Err(_) => packets.write(to, place, &[])?,
        }
    }
    packets.end(to)?;
    Ok(state)
}

// By the taker: the stream is cut into pieces of so many bytes, with so many allowed to each call. There are never more calls than one for each byte
// and one more. Where then not all is taken, that is put as a packet, as is a refusal, which never comes, and no stored text has it.
fn by_take<W: fmt::Write>(
    to: &mut W,
    stream: &[u8],
    piece: usize,
    allowance: usize,
) -> Result<Receiver, fmt::Error>
    requires { 0 < piece }
{
    let filled = calls::filled();
    let mut state = Receiver::fresh();
    let mut packets = Packets::begin(to)?;
    // The place is kept by hand: how far each turn goes is what is tested.
    let mut place = 0usize;
    for _ in 0..=stream.len() {
        let mut out = filled;
        let taken = state.take(piece_at(stream, place, piece), allowance, &mut out);
        state = taken.state;
        place = place.saturating_add(taken.taken);
        let last = place.saturating_sub(1);
        match taken.reason {
            Ok(Stop::Packet(n)) => packets.write(to, last, first(&out, n))?,
            Ok(_) => {}
            Err(_) => packets.write(to, last, &[])?,
        }
    }
    if place != stream.len() {
        packets.write(to, place, &[])?;
    }
    packets.end(to)?;
    Ok(state)
}

// What is left of the piece that the place lies in.
fn piece_at(stream: &[u8], place: usize, piece: usize) -> &[u8]
    requires { 0 < piece }
{
    match stream.get(place..) {
        Some(left) => first(left, piece - place % piece),
        None => &[],
    }
}

// The first n bytes; all of them where there are fewer.
fn first(bytes: &[u8], n: usize) -> &[u8] {
    bytes.get(..n).unwrap_or(bytes)
}
