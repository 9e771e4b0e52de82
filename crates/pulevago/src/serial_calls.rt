// The serial wire: the frame writer, and the receiver over a lent state.
ghost use Rattle.std.specs.Prelude.{◌≡◌, Ok, length};
ghost use Rattle.checks.specs.Numbers.{value_of};
ghost use Rattle.checks.specs.Output.{at_start};
ghost use Rattle.framing.specs.Writer.{writer_answer};
ghost use Rattle.framing.specs.Frame.{frame};
ghost use Rattle.serial.specs.Answers.{reason_answer};
ghost use Rattle.serial.specs.Receiver.{fresh_of};
ghost use Rattle.state.specs.InBuffer.{handed_part, step_answer_in, step_leaves, take_answer_in, take_leaves, take_output, taken_in};
ghost use Rattle.state.specs.State.{left};
ghost use Rattle.pulevago.specs.Calls.{done_where, fresh_answer, reason_number, test_answer};
ghost use Rattle.pulevago.specs.Lent.{given};

use checks::DONE;
use serial::{Inconsistent, Receiver, Stop};
use state::{PACKET_AT, STATE_SIZE, load, store};

// Why the taker stopped, in numbers: C reads them.
const TOOK_PACKET: u8 = 0;

const INPUT_ENDED: u8 = 1;

const ALLOWANCE_SPENT: u8 = 2;

// Writes the packet's frame at the output's start, and its length to `written`. It refuses a packet under 5 or over 255 bytes (number 1), and then an
// output shorter than the frame (2). A refusal writes nothing, and the bytes beyond the frame keep their content.
#[unsafe(no_mangle)]
pub extern "C" fn pulevago_frame_to_serial(
    packet: &[u8],
    out: &mut [u8],
    written: &mut usize,
) -> u32
    ensures value { result ≡ (writer_answer packet.now (length out.old)).number }
    ensures out_after { out.new ≡ given result out.old (at_start (frame packet.now) out.old) }
    ensures written_after { written.new ≡ given result written.old (value_of (writer_answer packet.now (length out.old))) }
{
    match framing::frame_to_serial(packet, out) {
        Ok(length) => {
            *written = length;
            DONE
        }
        Err(refusal) => u32::from(refusal),
    }
}

// Done where a test on a state holds, else number 9.
fn done_where(test: bool) -> u32
    ensures { result ≡ (done_where test).number }
{
    if test { DONE } else { u32::from(Inconsistent) }
}

// Makes the lent state a fresh receiver's, whatever stood there. It refuses a buffer that has not 263 bytes (number 9), and leaves it as it is.
#[unsafe(no_mangle)]
pub extern "C" fn pulevago_receiver_fresh(state: &mut [u8]) -> u32
    ensures value { result ≡ (fresh_answer state.old).number }
    ensures state_after { state.new ≡ left state.old fresh_of }
{
    let room = state.len() == STATE_SIZE;
    store(Receiver::fresh(), state);
    done_where(room)
}

// Whether the lent bytes are a consistent state: done, or number 9, also for a buffer that has not 263 bytes. It changes nothing.
#[unsafe(no_mangle)]
pub extern "C" fn pulevago_receiver_consistent(state: &[u8]) -> u32
    ensures { result ≡ (test_answer state.now).number }
{
    done_where(load(state).consistent())
}

// Feeds one byte to the receiver in the lent state. A packet that it ends stands in the state, `size` bytes from `place` on, until the next byte is fed;
// without one both are 0. It refuses bytes that are no consistent state (number 9): where they are 263 a fresh one stands there then, and any other buffer
// is left as it is. The byte is not looked at, and place and size stay as they are.
#[unsafe(no_mangle)]
pub extern "C" fn pulevago_receiver_step(
    state: &mut [u8],
    byte: u8,
    place: &mut usize,
    size: &mut usize,
) -> u32
    ensures value { result ≡ (step_answer_in byte state.old).number }
    ensures state_after { state.new ≡ step_leaves byte state.old }
    ensures place_after { place.new ≡ given result place.old (handed_part (step_answer_in byte state.old).values).place }
    ensures size_after { size.new ≡ given result size.old (handed_part (step_answer_in byte state.old).values).size }
{
    match state::step(state, byte) {
        Ok(Some(handed)) => {
            *place = PACKET_AT;
            *size = handed;
            DONE
        }
        Ok(None) => {
            *place = 0;
            *size = 0;
            DONE
        }
        Err(refusal) => u32::from(refusal),
    }
}

// What is told of why the taker stopped: its number, and the packet's length, which is 0 where there is none: C reads it.
fn told(stop: Stop) -> (u8, usize)
    ensures { (result.0 ≡ reason_number (Ok stop)) × (result.1 ≡ value_of (reason_answer (Ok stop))) }
{
    match stop {
        Stop::Packet(n) => (TOOK_PACKET, n),
        Stop::InputEnded => (INPUT_ENDED, 0),
        Stop::AllowanceSpent => (ALLOWANCE_SPENT, 0),
    }
}

// Feeds bytes of the input to the receiver in the lent state, until one ends a packet, the input ends or the allowance is spent: `reason` names the first
// of these that holds, and `taken` says how many bytes were fed. A packet of `size` bytes is copied to the output's start; without one `size` is 0 and the
// output is unchanged. It refuses bytes that are no consistent state (number 9) as a step does, and then an output under 255 bytes (2), which leaves the
// state as it is. A refusal feeds no byte and writes nothing else.
#[unsafe(no_mangle)]
pub extern "C" fn pulevago_receiver_take(
    state: &mut [u8],
    input: &[u8],
    allowance: usize,
    out: &mut [u8],
    reason: &mut u8,
    taken: &mut usize,
    size: &mut usize,
) -> u32
    ensures value { result ≡ (take_answer_in input.now allowance (length out.old) state.old).number }
    ensures state_after { state.new ≡ take_leaves input.now allowance (length out.old) state.old }
    ensures out_after { out.new ≡ take_output input.now allowance state.old out.old }
    ensures reason_after { reason.new ≡ given result reason.old (reason_number (taken_in input.now allowance (length out.old) state.old).reason) }
    ensures taken_after { taken.new ≡ given result taken.old (taken_in input.now allowance (length out.old) state.old).taken }
    ensures size_after { size.new ≡ given result size.old (value_of (take_answer_in input.now allowance (length out.old) state.old)) }
{
    let took = state::take(state, input, allowance, out);
    match took.reason {
        Ok(stop) => {
            let (why, packet) = told(stop);
            *reason = why;
            *taken = took.taken;
            *size = packet;
            DONE
        }
        Err(refusal) => u32::from(refusal),
    }
}
