// The walker over a transfer: thin functions on a slice and a place, as the scope names them, and the struct that holds both, an iterator.
ghost use Rattle.std.specs.Iterator.{MakesProgress, endless};
ghost use Rattle.std.specs.Prelude.{◌≡◌, ⊤};
ghost use Rattle.checks.specs.Part.{IsPart};
ghost use Rattle.transfer.specs.Walk.{Starts, Yields, found_part, place_after, walk_answer, walked_answer, yielded_as};

use usb::{DecodeError, HDR_LEN};

// What stands at a place of the transfer: a packet, by its length, or at its very end nothing, also of an empty transfer. It refuses a place beyond the
// transfer, and a place from which `decode` refuses (RxFailure, number 7). It changes nothing.
pub fn walk_at(transfer: &[u8], place: usize) -> Result<Option<usize>, DecodeError>
    ensures { walked_answer result ≡ walk_answer transfer.now place }
{
    // By a test of its own: through `get` a call for C takes 54 instructions for 47, and 16 bytes more of stack.
    if place > transfer.len() {
        return Err(DecodeError::RxFailure);
    }
    match &transfer[place..] {
        [] => Ok(None),
        rest => Ok(Some(usb::decode(rest)?)),
    }
}

// The packet there, as a part of the transfer; where there is none, an empty part. Neither this function nor the next may fail, so there is no Option.
pub fn part_at(transfer: &[u8], place: usize) -> &[u8]
    ensures { IsPart result transfer.entry (found_part transfer.now place) }
{
    match walk_at(transfer, place) {
        Ok(Some(n)) => {
            let start = place + HDR_LEN;
            &transfer[start..start + n]
        }
        Ok(None) | Err(_) => &transfer[..0],
    }
}

// The place behind that packet; where there is none, the place itself.
pub fn place_after(transfer: &[u8], place: usize) -> usize
    ensures { result ≡ place_after transfer.now place }
{
    match walk_at(transfer, place) {
        Ok(Some(n)) => place + (HDR_LEN + n),
        Ok(None) | Err(_) => place,
    }
}

// A transfer and a place in it.
#[derive(Clone, Copy, Debug, PartialEq, Eq)]
pub struct Walker<'a> {
    pub transfer: &'a [u8],
    pub place: usize,
}

impl<'a> Walker<'a> {
    // A walker at the start of a transfer.
    pub fn new(transfer: &'a [u8]) -> Walker<'a>
        ensures { Starts transfer.entry result }
    {
        Walker { transfer, place: 0 }
    }
}

// It has no `remaining`, since a refusal is given again and again.
impl<'a> Iterator for Walker<'a> {
    type Item = Result<&'a [u8], DecodeError>;

    ghost next_gives = { λ w item behind. Yields w (yielded_as item behind) };

    // The packet at the walker's place, as a part of the transfer; the walker moves behind it. At the transfer's end there is none, also of an empty transfer;
    // where decode refuses, or the place lies beyond the transfer, it is refused (RxFailure, number 7). Then the walker stays, and so does each later answer.
    fn next(&mut self) -> Option<Result<&'a [u8], DecodeError>>
        ensures steps { Yields self.old (yielded_as result self.new) }
        ensures goes { MakesProgress (λ _. ⊤) (λ _. endless) self.old result self.new }
    {
        match walk_at(self.transfer, self.place) {
            Ok(Some(n)) => {
                let start = self.place + HDR_LEN;
                self.place = start + n;
                Some(Ok(&self.transfer[start..start + n]))
            }
            Ok(None) => None,
            Err(refused) => Some(Err(refused)),
        }
    }
}
