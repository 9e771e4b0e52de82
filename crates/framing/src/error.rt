// Why the frame writer refuses.
ghost use Rattle.framing.specs.Error.{IsErrorNumber};

// A packet of under 5 or over 255 bytes, or else an output shorter than the frame.
#[derive(Clone, Copy, Debug, PartialEq, Eq, Hash)]
pub enum FrameError {
    BadLength,
    ShortOutput,
}

// The number of the refusal (document 01, 'Numbers given back').
impl From<FrameError> for u32 {
    ghost from_gives = { IsErrorNumber };

    fn from(error: FrameError) -> u32 {
        match error {
            FrameError::BadLength => 1,
            FrameError::ShortOutput => 2,
        }
    }
}
