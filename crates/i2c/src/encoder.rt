// Encode: a payload's I2C frame into a lent output.
ghost use Rattle.std.specs.Prelude.{◌≤◌, ◌≡◌, length};
ghost use Rattle.checks.specs.Output.{at_start};
ghost use Rattle.i2c.specs.Encode.{encode_answer, encode_error_number, encode_output, encoded_answer, frame_size};
ghost use Rattle.i2c.specs.Frame.{address_most, frame, payload_most};

use crate::wire::{ADDRESS_MAX, MCTP_I2C_COMMAND_CODE, MCTP_I2C_HEADER, MCTP_I2C_MAXMTU};

// Why encode refuses.
#[derive(Clone, Copy, Debug, PartialEq, Eq, Hash)]
pub enum EncodeError {
    BadAddress,
    BadArgument,
}

// The number of the refusal (document 01, 'Numbers given back').
impl From<EncodeError> for u32 {
    ghost from_gives = { λ refused number. number ≡ encode_error_number refused };

    fn from(refused: EncodeError) -> u32 {
        match refused {
            EncodeError::BadAddress => 4,
            EncodeError::BadArgument => 3,
        }
    }
}

// Header and payload at the output's start, and the PEC over both behind them, where it is wanted. The four go side by side: beside the public encode only
// this function has them, so a struct would be no plainer.
fn write(own: u8, dest: u8, payload: &[u8], out: &mut [u8], pec: bool)
    requires { (own ≤ address_most) × (dest ≤ address_most) × (length payload.now ≤ payload_most) × (frame_size pec (length payload.now) ≤ length out.old) }
    ensures { out.new ≡ at_start (frame own dest pec payload.now) out.old }
{
    let end = MCTP_I2C_HEADER + payload.len();
    // Byte by byte: a copy of an array says no more, and the law `four_copied` is about four stores and a copy.
    out[0] = dest * 2;
    out[1] = MCTP_I2C_COMMAND_CODE;
    out[2] = (payload.len() + 1) as u8;
    out[3] = own * 2 + 1;
    checks::copy_over(&mut out[MCTP_I2C_HEADER..end], payload);
    if pec {
        out[end] = checks::pec(&out[..end]);
    }
}

// Writes the payload's frame at the output's start, from our own address to a destination, and gives its length. It refuses an address over 127
// (BadAddress, number 4), and then a payload over 254 bytes or an output shorter than the frame, which has 4 bytes more than the payload, with PEC 5
// (BadArgument, number 3). A refusal writes nothing, and the bytes beyond the frame keep their content.
pub fn encode(
    own: u8,
    dest: u8,
    payload: &[u8],
    out: &mut [u8],
    pec: bool,
) -> Result<usize, EncodeError>
    ensures result_value { encoded_answer result ≡ encode_answer own dest pec (length payload.now) (length out.old) }
    ensures out_after { out.new ≡ encode_output result own dest pec payload.now out.old }
{
    if own > ADDRESS_MAX || dest > ADDRESS_MAX {
        return Err(EncodeError::BadAddress);
    }
    let whole = MCTP_I2C_HEADER + payload.len() + usize::from(pec);
    if payload.len() > MCTP_I2C_MAXMTU || out.len() < whole {
        return Err(EncodeError::BadArgument);
    }
    write(own, dest, payload, out, pec);
    Ok(whole)
}
