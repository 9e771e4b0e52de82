// Decode: the packet at the start of a transfer and what is behind it, both as parts of the input.
ghost use Rattle.std.specs.Prelude.{◌≡◌};
ghost use Rattle.checks.specs.Part.{IsPart};
ghost use Rattle.usb.specs.Decode.{decode_answer, decode_error_number, decoded_answer, packet_part, remainder_part};

use crate::wire::{FIRST_BYTE, HDR_LEN, SECOND_BYTE};

// Why decode refuses an input.
#[derive(Clone, Copy, Debug, PartialEq, Eq, Hash)]
pub enum DecodeError {
    RxFailure,
}

// The number of the refusal (document 01, 'Numbers given back').
impl From<DecodeError> for u32 {
    ghost from_gives = { λ refused number. number ≡ decode_error_number refused };

    fn from(refused: DecodeError) -> u32 {
        match refused {
            DecodeError::RxFailure => 7,
        }
    }
}

// The length of the packet behind the header at the input's start; `packet` and `remainder` give the parts. It refuses (RxFailure, number 7), in this
// order: fewer than 4 bytes; first two bytes that are not 1a b4; a length byte under 4; a length byte over the input's length. The third byte is not
// tested. It changes nothing.
pub fn decode(input: &[u8]) -> Result<usize, DecodeError>
    ensures { decoded_answer result ≡ decode_answer input.now }
{
    let &[first, second, _, len, ..] = input else {
        return Err(DecodeError::RxFailure);
    };
    if first != FIRST_BYTE || second != SECOND_BYTE {
        return Err(DecodeError::RxFailure);
    }
    let len = usize::from(len);
    if len < HDR_LEN || input.len() < len {
        return Err(DecodeError::RxFailure);
    }
    Ok(len - HDR_LEN)
}

// Packet and remainder; where `decode` refuses, empty parts: neither function below may fail, so there is no Option.
fn parts(input: &[u8]) -> (&[u8], &[u8])
    ensures packet { IsPart result.0 input.entry (packet_part input.now) }
    ensures remainder { IsPart result.1 input.entry (remainder_part input.now) }
{
    match decode(input) {
        Ok(n) => (&input[HDR_LEN..HDR_LEN + n], &input[HDR_LEN + n..]),
        Err(_) => (&input[..0], &input[..0]),
    }
}

// The packet, as a part of the input; where `decode` refuses, an empty part.
pub fn packet(input: &[u8]) -> &[u8]
    ensures { IsPart result input.entry (packet_part input.now) }
{
    parts(input).0
}

// What is behind the packet, as a part of the input, for the next `decode`; where `decode` refuses, an empty part.
pub fn remainder(input: &[u8]) -> &[u8]
    ensures { IsPart result input.entry (remainder_part input.now) }
{
    parts(input).1
}
