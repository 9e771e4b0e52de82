// The frame writer: a packet's serial frame (DSP0253) into a lent output.
ghost use Rattle.std.specs.Prelude.{◌+◌, ◌≤◌, ◌≡◌, [], ◌∷◌, cond, eqb, length};
ghost use Rattle.checks.specs.Output.{at_start};
ghost use Rattle.framing.specs.Frame.{flag, flag_escaped, escape_escaped, escaped, escaped_all, escapes, escapes_of, frame, packet_most};
ghost use Rattle.framing.specs.Writer.{output_of, writer_answer, written_answer};
ghost use Rattle.framing.specs.Writing.{Wrote};

use crate::error::FrameError;
use crate::wire::{
    ESCAPE_ESCAPED, FLAG_ESCAPED, FRAMING_ESCAPE, FRAMING_FLAG, MCTP_SERIAL_REVISION, PACKET_LEAST,
    PACKET_MOST,
};

// 1 for a byte that is escaped, else 0.
fn escapes_of(b: u8) -> usize
    ensures { result ≡ escapes_of b }
{
    usize::from(matches!(b, FRAMING_FLAG | FRAMING_ESCAPE))
}

// How many of the packet's bytes are escaped.
fn escapes_in(packet: &[u8]) -> usize
    requires { length packet.now ≤ packet_most }
    ensures { result ≡ escapes packet.now }
{
    packet.iter().map(|b| escapes_of(*b)).sum()
}

// What stands behind the escape for a byte that is escaped.
fn escaped_as(b: u8) -> u8
    ensures { result ≡ cond (eqb b flag) flag_escaped escape_escaped }
{
    match b {
        FRAMING_FLAG => FLAG_ESCAPED,
        _ => ESCAPE_ESCAPED,
    }
}

// A frame that is being written: the output, the place behind what it has written there, and the check's register.
#[derive(Drop)]
struct Writer<'a> {
    out: &'a mut [u8],
    place: usize,
    register: u32,
}

// Each asks for the room of what it puts, which is another amount for each, so no invariant says it.
impl<'a> Writer<'a> {
    // A byte as it stands, which the check does not cover.
    fn put(&mut self, b: u8)
        requires { self.old.place + 1 ≤ length self.old.out.now }
        ensures { Wrote self.old self.new (b ∷ []) [] }
    {
        self.out[self.place] = b;
        self.place += 1;
    }

    // A byte as it stands, which the check covers.
    fn put_checked(&mut self, b: u8)
        requires { self.old.place + 1 ≤ length self.old.out.now }
        ensures { Wrote self.old self.new (b ∷ []) (b ∷ []) }
    {
        self.put(b);
        self.register = checks::frame_next(self.register, b);
    }

    // A byte of the packet, escaped, which the check does not cover yet.
    fn put_unchecked(&mut self, b: u8)
        requires { self.old.place + length (escaped b) ≤ length self.old.out.now }
        ensures { Wrote self.old self.new (escaped b) [] }
    {
        match b {
            FRAMING_FLAG | FRAMING_ESCAPE => {
                self.put(FRAMING_ESCAPE);
                self.put(escaped_as(b));
            }
            _ => self.put(b),
        }
    }

    // A byte of the packet, escaped, which the check covers.
    fn put_escaped(&mut self, b: u8)
        requires { self.old.place + length (escaped b) ≤ length self.old.out.now }
        ensures { Wrote self.old self.new (escaped b) (b ∷ []) }
    {
        self.put_unchecked(b);
        self.register = checks::frame_next(self.register, b);
    }

    // The packet, escaped, which the check covers.
    fn put_packet(&mut self, packet: &[u8])
        requires { self.old.place + length (escaped_all packet.now) ≤ length self.old.out.now }
        ensures { Wrote self.old self.new (escaped_all packet.now) packet.now }
    {
        for &b in packet {
            self.put_escaped(b);
        }
    }
}

// The packet's frame at the output's start. The check covers the revision, the count and the packet; its high byte comes first.
#[tactic(auto, using(crate::proofs::FrameLaws::frame_room))]
fn write_frame(packet: &[u8], out: &mut [u8])
    requires { (length packet.now ≤ packet_most) × (length (frame packet.now) ≤ length out.old) }
    ensures { out.new ≡ at_start (frame packet.now) out.old }
{
    let mut writer = Writer {
        out,
        place: 0,
        register: checks::FRAME_START as u32,
    };
    writer.put(FRAMING_FLAG);
    writer.put_checked(MCTP_SERIAL_REVISION);
    writer.put_checked(packet.len() as u8);
    writer.put_packet(packet);
    let [high, low] = (writer.register as u16).to_be_bytes();
    writer.put(high);
    writer.put(low);
    writer.put(FRAMING_FLAG);
}

// Writes the packet's frame at the output's start and answers its length. It refuses a packet under 5 or over 255 bytes (BadLength, number
// 1), and then an output shorter than the frame (ShortOutput, number 2). A refusal writes nothing, and the bytes beyond the frame keep their
// content.
pub fn frame_to_serial(packet: &[u8], out: &mut [u8]) -> Result<usize, FrameError>
    ensures result_value { written_answer result ≡ writer_answer packet.now (length out.old) }
    ensures out_after { out.new ≡ output_of result packet.now out.old }
{
    let count = packet.len();
    if !(PACKET_LEAST..=PACKET_MOST).contains(&count) {
        return Err(FrameError::BadLength);
    }
    let len = count + escapes_in(packet) + 6;
    if out.len() < len {
        return Err(FrameError::ShortOutput);
    }
    write_frame(packet, out);
    Ok(len)
}
