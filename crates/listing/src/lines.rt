// The packets that bytes of a serial line hand out, as lines of hex in a lent output.
ghost use Rattle.std.specs.Prelude.{◌+◌, ◌≤◌, ◌≡◌, true, [], ◌∷◌, length};
ghost use Rattle.checks.specs.Numbers.{answer, done};
ghost use Rattle.checks.specs.Output.{at_start, put_at};
ghost use Rattle.serial.specs.Receiver.{consistent_of};
ghost use Rattle.serial.specs.Run.{heard, run_of};
ghost use Rattle.listing.specs.Listing.{Within, lines_answer, list_answer, listed, roomy, state_after};
ghost use Rattle.listing.specs.Text.{lines_of};
ghost use Rattle.listing.specs.Turn.{CopiedWithin, added, copied_out, next_heard, next_turn};

use framing::PACKET_MOST;
use serial::{Receiver, STORED_SIZE, Stop, TakeError};

// The room for what may be stored before an input: two digits for each stored byte.
const STORED_TEXT: usize = 2 * STORED_SIZE;

// The answer, which is the length of the text or the refusal, how many packets were listed, and the state after it.
#[derive(Clone, Copy, Debug, PartialEq, Eq)]
pub struct Listed {
    pub answer: Result<usize, TakeError>,
    pub packets: usize,
    pub state: Receiver,
}

// Whether an output of `room` bytes has the room that an input of `size` bytes asks: two bytes for each of them, and the room for what may be stored.
fn has_room(size: usize, room: usize) -> bool
    ensures { result ≡ roomy size room }
{
    room.checked_sub(STORED_TEXT)
        .is_some_and(|left| size <= left / 2)
}

// What the line of a packet makes of a text: the place behind it, and the packets, one or none.
#[derive(Clone, Copy, Debug, PartialEq, Eq)]
struct Added {
    used: usize,
    packets: usize,
}

// Puts the line of the packet that the taker copied to the start of `room`, if it handed one out, behind the `used` bytes of the output.
// `out` and `used` go side by side, as a text's place goes beside its output everywhere: `text::put` says why.
#[tactic(auto, using(checks::proofs::Output::put_none), unfolding(crate::specs::Text::lines_of))]
fn put_packet(reason: Result<Stop, TakeError>, room: &[u8], out: &mut [u8], used: usize) -> Added
    requires { CopiedWithin reason room.now × (used + length (lines_of (copied_out reason room.now)) ≤ length out.old) }
    ensures value { result ≡ added used (copied_out reason room.now) }
    ensures out_after { out.new ≡ put_at used (lines_of (copied_out reason room.now)) out.old }
{
    if let Ok(Stop::Packet(n)) = reason {
        let end = text::put_line(&room[..n], out, used);
        return Added {
            used: end,
            packets: 1,
        };
    }
    Added { used, packets: 0 }
}

// What a call of the taker adds: the bytes that it took, the place behind the text, the packets, and the state after it.
#[derive(Clone, Copy, Debug, PartialEq, Eq)]
struct Turn {
    taken: usize,
    used: usize,
    packets: usize,
    state: Receiver,
}

// Calls the taker once, from a consistent state, and puts the line of a packet that it hands out behind the `used` bytes of the output. Consistency is asked
// here, and not of the type: a receiver's fields are its caller's.
fn list_next(receiver: Receiver, input: &[u8], out: &mut [u8], used: usize) -> Turn
    requires { (consistent_of receiver ≡ true) × (used + length (lines_of (heard receiver input.now)) ≤ length out.old) }
    ensures value { result ≡ next_turn receiver input.now used }
    ensures out_after { out.new ≡ put_at used (lines_of (next_heard receiver input.now)) out.old }
{
    let mut room = [0u8; PACKET_MOST];
    let t = receiver.take(input, input.len(), &mut room);
    let line = put_packet(t.reason, &room, out, used);
    Turn {
        taken: t.taken,
        used: line.used,
        packets: line.packets,
        state: t.state,
    }
}

// Lists the whole input, from a consistent state, into an output that has room for the text.
fn list_all(receiver: Receiver, input: &[u8], out: &mut [u8]) -> Listed
    requires { (consistent_of receiver ≡ true) × (length (lines_of (heard receiver input.now)) ≤ length out.old) }
    ensures answer_value { lines_answer result.answer ≡ answer done (length (lines_of (heard receiver input.now)) ∷ []) }
    ensures within { Within result.answer out.new }
    ensures packets_value { result.packets ≡ length (heard receiver input.now) }
    ensures state_value { result.state ≡ run_of receiver input.now }
    ensures out_after { out.new ≡ at_start (lines_of (heard receiver input.now)) out.old }
{
    let mut state = receiver;
    let mut rest = input;
    let mut used = 0;
    let mut packets = 0;
    while !rest.is_empty() {
        let turn = list_next(state, rest, out, used);
        rest = &rest[turn.taken..];
        used = turn.used;
        packets += turn.packets;
        state = turn.state;
    }
    Listed {
        answer: Ok(used),
        packets,
        state,
    }
}

// Feeds the whole input to the receiver and writes each packet that it hands out as a line of lower-case hex, one behind the other, at the
// output's start. It answers the length of the text and how many packets there are, and hands back the state, for the bytes that come next. It
// refuses an inconsistent state (Inconsistent, number 9), and a fresh one comes back; then an output shorter than twice the input and 518 bytes
// (ShortOutput, number 2), and the state that went in comes back. A refusal feeds no byte and writes nothing, and the bytes beyond the text keep
// their content.
#[tactic(auto, unfolding(crate::specs::Listing::list_answer, crate::specs::Listing::listed, crate::specs::Listing::state_after, crate::specs::Text::lines_of))]
pub fn list(receiver: Receiver, input: &[u8], out: &mut [u8]) -> Listed
    ensures answer_value { lines_answer result.answer ≡ list_answer input.now (length out.old) receiver }
    ensures within { Within result.answer out.new }
    ensures packets_value { result.packets ≡ length (listed input.now (length out.old) receiver) }
    ensures state_value { result.state ≡ state_after input.now (length out.old) receiver }
    ensures out_after { out.new ≡ at_start (lines_of (listed input.now (length out.old) receiver)) out.old }
{
    if !receiver.consistent() {
        return Listed {
            answer: Err(TakeError::Inconsistent),
            packets: 0,
            state: Receiver::fresh(),
        };
    }
    if !has_room(input.len(), out.len()) {
        return Listed {
            answer: Err(TakeError::ShortOutput),
            packets: 0,
            state: receiver,
        };
    }
    list_all(receiver, input, out)
}
