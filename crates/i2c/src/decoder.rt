// Decode: an I2C frame's source address, and its payload as a part of the input.
ghost use Rattle.std.specs.Prelude.{◌≡◌};
ghost use Rattle.checks.specs.Part.{IsPart};
ghost use Rattle.i2c.specs.Decode.{body_answer, decode_answer, decode_error_number, decoded_answer, payload_part};

use crate::wire::{MCTP_I2C_COMMAND_CODE, MCTP_I2C_HEADER};

// Why decode refuses an input.
#[derive(Clone, Copy, Debug, PartialEq, Eq, Hash)]
pub enum DecodeError {
    InvalidInput,
}

// The number of the refusal (document 01, 'Numbers given back').
impl From<DecodeError> for u32 {
    ghost from_gives = { λ refused number. number ≡ decode_error_number refused };

    fn from(refused: DecodeError) -> u32 {
        match refused {
            DecodeError::InvalidInput => 5,
        }
    }
}

// The checks on header and payload, the PEC taken off.
fn decode_body(bytes: &[u8]) -> Result<u8, DecodeError>
    ensures { decoded_answer result ≡ body_answer bytes.now }
{
    let &[_, command, count, source, ..] = bytes else {
        return Err(DecodeError::InvalidInput);
    };
    if usize::from(count) != bytes.len() - MCTP_I2C_HEADER + 1 || command != MCTP_I2C_COMMAND_CODE {
        return Err(DecodeError::InvalidInput);
    }
    Ok(source / 2)
}

// The source address of a frame; `payload` gives the payload. It refuses (InvalidInput, number 5), in this order: with PEC, an empty input, then a
// last byte that is not the PEC of those before it; fewer than 4 bytes, the PEC taken off; a third byte that is not the length behind the header
// + 1; a second byte that is not 0x0f. The first byte and the low bit of the fourth are not tested. It changes nothing.
pub fn decode(input: &[u8], pec: bool) -> Result<u8, DecodeError>
    ensures { decoded_answer result ≡ decode_answer pec input.now }
{
    if !pec {
        return decode_body(input);
    }
    let [body @ .., last] = input else {
        return Err(DecodeError::InvalidInput);
    };
    if checks::pec(body) != *last {
        return Err(DecodeError::InvalidInput);
    }
    decode_body(body)
}

// The payload of a frame, as a part of the input; where `decode` refuses, an empty part: it may not fail, so there is no Option.
pub fn payload(input: &[u8], pec: bool) -> &[u8]
    ensures { IsPart result input.entry (payload_part pec input.now) }
{
    match decode(input, pec) {
        Ok(_) => &input[MCTP_I2C_HEADER..input.len() - usize::from(pec)],
        Err(_) => &input[..0],
    }
}
