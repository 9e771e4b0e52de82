// The builder: packets appended, one a call, to a transfer in a lent buffer.
ghost use Rattle.std.specs.Prelude.{◌+◌, ◌≤◌, ◌≡◌, length};
ghost use Rattle.checks.specs.Output.{at_start};
ghost use Rattle.usb.specs.Header.{framed, header_size, packet_most};
ghost use Rattle.transfer.specs.Builder.{append_answer, append_error_number, append_output, appended_answer, used_after};

use usb::{HDR_LEN, MCTP_USB_MTU_MAX};

// the largest transfer
const TX_XFER_SIZE: usize = 512;

// Why append refuses a packet.
#[derive(Clone, Copy, Debug, PartialEq, Eq, Hash)]
pub enum AppendError {
    BadPacket,
    NoRoom,
}

// The number of the refusal (document 01, 'Numbers given back').
impl From<AppendError> for u32 {
    ghost from_gives = { λ refused number. number ≡ append_error_number refused };

    fn from(refused: AppendError) -> u32 {
        match refused {
            AppendError::BadPacket => 6,
            AppendError::NoRoom => 8,
        }
    }
}

// Header and packet at the start of a part that has room for both.
fn put(packet: &[u8], part: &mut [u8])
    requires { (length packet.now ≤ packet_most) × (header_size + length packet.now ≤ length part.old) }
    ensures { part.new ≡ at_start (framed packet.now) part.old }
{
    usb::header(packet.len(), &mut part[..HDR_LEN]).unwrap();
    checks::copy_over(&mut part[HDR_LEN..HDR_LEN + packet.len()], packet);
}

// Appends the packet behind its header to the `used` bytes of the output, and adds them to `used`. It refuses a packet over 251 bytes (BadPacket, number 6),
// and then a used count over the output's length or over 512, or fewer bytes left below the smaller of the two than header and packet have (NoRoom, number
// 8). A refusal writes nothing and leaves `used`; what stands before and behind the appended bytes keeps its content. The count stays beside the output, since
// both are the caller's, in fixed memory, also from C.
pub fn append(packet: &[u8], out: &mut [u8], used: &mut usize) -> Result<(), AppendError>
    ensures answer_value { appended_answer result ≡ append_answer (length packet.now) used.old (length out.old) }
    ensures used_value { used.new ≡ used_after (length packet.now) used.old (length out.old) }
    ensures out_after { out.new ≡ append_output packet.now used.old out.old }
{
    if packet.len() > MCTP_USB_MTU_MAX {
        return Err(AppendError::BadPacket);
    }
    let whole = packet.len() + HDR_LEN;
    let most = out.len().min(TX_XFER_SIZE);
    if *used > most || most - *used < whole {
        return Err(AppendError::NoRoom);
    }
    put(packet, &mut out[*used..]);
    *used += whole;
    Ok(())
}
