// The calls but a receiver's, each with its arguments from the line's fields and its results as the line has them. Where they are written and the fields stay two
// parameters: one is written, the other read.
use crate::call::Cut;
use crate::error::LineError;
use crate::fields::{Fields, LONGEST, no_bytes};
use crate::results::{Answer, Decimal, Hex, Packets, number_of};
use std::{array, fmt};

// An output before a call, filled so that a byte that was not written is known: the byte at place i is (160 + i) mod 256.
pub(crate) fn filled() -> [u8; LONGEST] {
    array::from_fn(|i| ((i % 256) as u8).wrapping_add(160))
}

// `check BYTES`, in two calls, which part the bytes at the cut: FRAMECHECK PEC.
pub(crate) fn check<W: fmt::Write>(
    to: &mut W,
    fields: &mut Fields,
    cut: Cut,
) -> Result<(), LineError> {
    let mut held = no_bytes();
    let bytes = fields.bytes(&mut held)?;
    let (first, second) = bytes.split_at(match cut {
        Cut::Nowhere => bytes.len(),
        Cut::InTheMiddle => bytes.len() / 2,
    });
    let frame_check = checks::frame_check_from(checks::frame_check(first), second);
    let pec = checks::pec_from(checks::pec(first), second);
    let frame_check = frame_check.to_be_bytes();
    let frame_check = Hex(&frame_check);
    let pec = [pec];
    let pec = Hex(&pec);
    write!(to, " {frame_check} {pec}")?;
    Ok(())
}

// `pec BYTES`, for documents that print no frame check: PEC.
pub(crate) fn pec<W: fmt::Write>(to: &mut W, fields: &mut Fields) -> Result<(), LineError> {
    let mut held = no_bytes();
    let bytes = fields.bytes(&mut held)?;
    let pec = [checks::pec(bytes)];
    let pec = Hex(&pec);
    write!(to, " {pec}")?;
    Ok(())
}

// `frame PACKET ROOM`: NUMBER LENGTH OUT.
pub(crate) fn frame<W: fmt::Write>(to: &mut W, fields: &mut Fields) -> Result<(), LineError> {
    let mut held = no_bytes();
    let packet = fields.bytes(&mut held)?;
    let room = fields.room()?;
    let mut out = filled();
    let out = &mut out[..room];
    let written = Answer::of(framing::frame_to_serial(packet, out));
    let out = Hex(out);
    write!(to, " {written} {out}")?;
    Ok(())
}

// `i2c-encode OWN DEST KIND PAYLOAD ROOM`: NUMBER LENGTH OUT.
pub(crate) fn i2c_encode<W: fmt::Write>(to: &mut W, fields: &mut Fields) -> Result<(), LineError> {
    let own = fields.byte()?;
    let dest = fields.byte()?;
    let pec = fields.pec()?;
    let mut held = no_bytes();
    let payload = fields.bytes(&mut held)?;
    let room = fields.room()?;
    let mut out = filled();
    let out = &mut out[..room];
    let encoded = Answer::of(i2c::encode(own, dest, payload, out, pec));
    let out = Hex(out);
    write!(to, " {encoded} {out}")?;
    Ok(())
}

// `i2c-decode KIND INPUT`: NUMBER SOURCE PAYLOAD. A refusal has an empty part, which is written as any other.
pub(crate) fn i2c_decode<W: fmt::Write>(to: &mut W, fields: &mut Fields) -> Result<(), LineError> {
    let pec = fields.pec()?;
    let mut held = no_bytes();
    let input = fields.bytes(&mut held)?;
    let payload = Hex(i2c::payload(input, pec));
    let decoded = i2c::decode(input, pec);
    let number = number_of(decoded);
    match decoded {
        Ok(source) => {
            let source = [source];
            let source = Hex(&source);
            write!(to, " {number} {source} {payload}")?
        }
        Err(_) => write!(to, " {number} - {payload}")?,
    }
    Ok(())
}

// `usb-header SIZE ROOM`: NUMBER OUT.
pub(crate) fn usb_header<W: fmt::Write>(to: &mut W, fields: &mut Fields) -> Result<(), LineError> {
    let packet_size = fields.number()?;
    let room = fields.room()?;
    let mut out = filled();
    let out = &mut out[..room];
    let number = number_of(usb::header(packet_size, out));
    let out = Hex(out);
    write!(to, " {number} {out}")?;
    Ok(())
}

// `usb-decode INPUT`: NUMBER LENGTH PACKET REMAINDER. A refusal has empty parts, which are written as any other.
pub(crate) fn usb_decode<W: fmt::Write>(to: &mut W, fields: &mut Fields) -> Result<(), LineError> {
    let mut held = no_bytes();
    let input = fields.bytes(&mut held)?;
    let decoded = Answer::of(usb::decode(input));
    let packet = Hex(usb::packet(input));
    let remainder = Hex(usb::remainder(input));
    write!(to, " {decoded} {packet} {remainder}")?;
    Ok(())
}

// `usb-append PACKET USED ROOM`: NUMBER USED OUT.
pub(crate) fn usb_append<W: fmt::Write>(to: &mut W, fields: &mut Fields) -> Result<(), LineError> {
    let mut held = no_bytes();
    let packet = fields.bytes(&mut held)?;
    let mut used = fields.number()?;
    let room = fields.room()?;
    let mut out = filled();
    let out = &mut out[..room];
    let number = number_of(transfer::append(packet, out, &mut used));
    let used = Decimal(used);
    let out = Hex(out);
    write!(to, " {number} {used} {out}")?;
    Ok(())
}

// `usb-walk TRANSFER PLACE`: PACKETS NUMBER PLACE, the last two from where the walk stopped: a walker that moves from there says another place. Each
// packet takes four bytes or more, which bounds the turns.
pub(crate) fn usb_walk<W: fmt::Write>(to: &mut W, fields: &mut Fields) -> Result<(), LineError> {
    let mut held = no_bytes();
    let transfer = fields.bytes(&mut held)?;
    // The place is kept by hand: how far each turn goes is what is tested.
    let mut place = fields.number()?;
    let mut packets = Packets::begin(to)?;
    for _ in 0..=transfer.len() / 4 {
        let part = transfer::part_at(transfer, place);
        if matches!(transfer::walk_at(transfer, place), Ok(Some(_))) || !part.is_empty() {
            packets.write(to, place, part)?;
        }
        place = transfer::place_after(transfer, place);
    }
    packets.end(to)?;
    let number = number_of(transfer::walk_at(transfer, place));
    let place = Decimal(place);
    write!(to, " {number} {place}")?;
    Ok(())
}
