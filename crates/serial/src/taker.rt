// What the taker answers: why it stopped, how many bytes it took, and the state after them. The taker itself is `Receiver::take`.
ghost use Rattle.serial.specs.Answers.{IsTakeErrorNumber};

use crate::receiver::Receiver;

// Why the taker stopped where it took bytes: a packet of so many bytes, the input's end or the allowance's.
#[derive(Clone, Copy, Debug, PartialEq, Eq, Hash)]
pub enum Stop {
    Packet(usize),
    InputEnded,
    AllowanceSpent,
}

// Why it took none: too short an output, or an inconsistent state.
#[derive(Clone, Copy, Debug, PartialEq, Eq, Hash)]
pub enum TakeError {
    ShortOutput,
    Inconsistent,
}

#[derive(Clone, Copy, Debug, PartialEq, Eq, Hash)]
pub struct Taken {
    pub reason: Result<Stop, TakeError>,
    pub taken: usize,
    pub state: Receiver,
}

// The number of the refusal (document 01, 'Numbers given back').
impl From<TakeError> for u32 {
    ghost from_gives = { IsTakeErrorNumber };

    fn from(e: TakeError) -> u32 {
        match e {
            TakeError::ShortOutput => 2,
            TakeError::Inconsistent => 9,
        }
    }
}
