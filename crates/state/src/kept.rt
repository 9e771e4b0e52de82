// A receiver that is kept in a lent buffer: its step and its taker, on the state that the buffer holds.
ghost use Rattle.std.specs.Prelude.{◌≡◌, length};
ghost use Rattle.serial.specs.Answers.{outcome_answer, reason_answer};
ghost use Rattle.state.specs.InBuffer.{step_answer_in, step_in, step_leaves, take_answer_in, take_leaves, take_output, took_in};

use crate::buffer::{load, store};
use serial::{Inconsistent, Stop, TakeError};

// Feeds one byte to the receiver in the buffer. A packet of n bytes that is handed out stands there from `PACKET_AT` on until the next byte is fed. A buffer
// that holds no state is refused (Inconsistent, number 9): where it has 263 bytes a fresh one stands there then, and any other is left as it is. The byte is
// not looked at.
#[tactic(auto, unfolding(crate::specs::InBuffer::step_answer_in, crate::specs::InBuffer::step_leaves))]
pub fn step(bytes: &mut [u8], b: u8) -> Result<Option<usize>, Inconsistent>
    ensures value { result ≡ (step_in b bytes.old).outcome }
    ensures result_value { outcome_answer result ≡ step_answer_in b bytes.old }
    ensures bytes_after { bytes.new ≡ step_leaves b bytes.old }
{
    let stepped = load(bytes).step(b);
    let outcome = stepped.outcome;
    store(stepped.state, bytes);
    outcome
}

// Why the taker stopped, and how many bytes it took. It stays beside `serial::Taken`: the state stays in its buffer, so there is none to hand back.
#[derive(Clone, Copy, Debug, PartialEq, Eq, Hash)]
pub struct Took {
    pub reason: Result<Stop, TakeError>,
    pub taken: usize,
}

// Takes bytes of the input, as `Receiver::take` does, for the receiver in the buffer. A buffer that holds no state is refused as by a step (Inconsistent,
// number 9), and then an output under 255 bytes is (ShortOutput, number 2), which leaves the state as it is. A refusal takes no byte, and leaves the output.
#[tactic(auto, unfolding(crate::specs::InBuffer::take_answer_in, crate::specs::InBuffer::take_leaves, crate::specs::InBuffer::take_output))]
pub fn take(bytes: &mut [u8], input: &[u8], allowance: usize, out: &mut [u8]) -> Took
    ensures value { result ≡ took_in input.now allowance (length out.old) bytes.old }
    ensures reason_value { reason_answer result.reason ≡ take_answer_in input.now allowance (length out.old) bytes.old }
    ensures bytes_after { bytes.new ≡ take_leaves input.now allowance (length out.old) bytes.old }
    ensures out_after { out.new ≡ take_output input.now allowance bytes.old out.old }
{
    let taken = load(bytes).take(input, allowance, out);
    let reason = taken.reason;
    // Not through a local of its own, which would be one more copy of the state.
    store(taken.state, bytes);
    Took {
        reason,
        taken: taken.taken,
    }
}
