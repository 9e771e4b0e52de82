// A receiver's state in a lent buffer: loaded from its bytes, and stored.
ghost use Rattle.std.specs.Prelude.{◌≡◌};
ghost use Rattle.state.specs.State.{loaded, no_state, left};

use framing::PACKET_MOST;
use serial::{Position, Receiver, STORED_SIZE};

// the first number that is no position's; the layout, `left` of specs/State.antt, has it in a buffer that holds no state
const NO_POSITION: u8 = 7;

// where the stored bytes begin
const STORED_AT: usize = 4;

pub const STATE_SIZE: usize = STORED_AT + STORED_SIZE;

// where a packet that a step handed out begins: behind the stored revision and count
pub const PACKET_AT: usize = STORED_AT + 2;

// What is loaded where no state is held: it is not consistent. There is no Option: `loaded`, which the contracts name, has a state for any bytes.
fn no_state() -> Receiver
    ensures { result ≡ no_state }
{
    Receiver {
        position: Position::FrameEnd,
        ..Receiver::fresh()
    }
}

// The state that the bytes of a buffer hold. A buffer that has not 263 bytes holds none, nor does one whose first byte is over 6: what is loaded then is
// not consistent, and the receiver's functions refuse it (number 9).
#[tactic(auto, using(crate::proofs::State::unknown), unfolding(crate::specs::State::loaded))]
pub fn load(bytes: &[u8]) -> Receiver
    ensures { result ≡ loaded bytes.now }
{
    if bytes.len() != STATE_SIZE {
        return no_state();
    }
    let Ok(position) = Position::try_from(bytes[0]) else {
        return no_state();
    };
    let mut stored = [0; STORED_SIZE];
    checks::copy_over(&mut stored, &bytes[STORED_AT..]);
    let len = u16::from_be_bytes([bytes[2], bytes[3]]);
    Receiver {
        position,
        count: usize::from(bytes[1]),
        len: usize::from(len),
        stored,
    }
}

// Writes the state's bytes to the buffer. One with a count over 255 or a length over 259, which is not consistent, is not stored: the first byte is made 7,
// so that the buffer holds none. A buffer that has not 263 bytes is left as it is.
#[tactic(auto, unfolding(crate::specs::State::left))]
pub fn store(receiver: Receiver, bytes: &mut [u8])
    ensures { bytes.new ≡ left bytes.old receiver }
{
    if bytes.len() != STATE_SIZE {
        return;
    }
    let count = receiver.count;
    let len = receiver.len;
    if (PACKET_MOST < count) | (STORED_SIZE < len) {
        bytes[0] = NO_POSITION;
        return;
    }
    bytes[0] = u8::from(receiver.position);
    bytes[1] = count as u8;
    let [high, low] = (len as u16).to_be_bytes();
    bytes[2] = high;
    bytes[3] = low;
    checks::copy_over(&mut bytes[STORED_AT..], &receiver.stored);
}
