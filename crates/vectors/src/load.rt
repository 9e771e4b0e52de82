// A list's bytes.
ghost use Rattle.std.specs.Prelude.{◌<◌, ◌≤◌, IfOk, length};

use std::error::Error;
use std::io::{ErrorKind, Read};
use std::rt::Files;
use std::{fmt, fs, io};

// The room: a list has fewer bytes.
pub(crate) const ROOM: usize = 524288;

// Why a list isn't replayed.
#[derive(Debug, Drop)]
pub(crate) enum LoadError {
    Unopened(io::Error),
    Nothing,
    TooLong,
}

impl fmt::Display for LoadError {
    fn fmt<W: fmt::Write>(&self, f: &mut fmt::Formatter<W>) -> fmt::Result {
        match self {
            LoadError::Unopened(e) => write!(f, "{e}"),
            LoadError::Nothing => f.write_str("nothing could be read of this list"),
            LoadError::TooLong => f.write_str("this list is too long for the room that main has"),
        }
    }
}

impl Error for LoadError {}

// The bytes of the file, up to where it ends or a read fails, at the start of a room that is lent for them: a list costs no heap, and can't run out of it.
// A list that fills the room is refused, since its end isn't seen.
pub(crate) fn load<'a, R: Files>(
    rt: &R,
    path: &str,
    room: &'a mut [u8; ROOM],
) -> Result<&'a [u8], LoadError>
    ensures not_empty { IfOk result (λ list. 0 < length list.now) }
    ensures within_room { IfOk result (λ list. length list.now < 524288) }
{
    let mut file = fs::open(rt, path).map_err(LoadError::Unopened)?;
    match fill(&mut file, room) {
        0 => Err(LoadError::Nothing),
        n if n < ROOM => Ok(&room[..n]),
        _ => Err(LoadError::TooLong),
    }
}

// Reads until the room is full, the input ends or a read fails, and answers how many bytes came. A read that a signal cuts short is made again; the turns are
// counted, since a proved loop has to end.
fn fill<I: Read>(input: &mut I, room: &mut [u8]) -> usize
    ensures { result ≤ length room.new }
{
    let mut len = 0;
    for _ in 0..u64::MAX {
        match input.read(&mut room[len..]) {
            Ok(0) => break,
            Ok(n) => len += n,
            Err(e) if e.kind() == ErrorKind::Interrupted => {}
            Err(_) => break,
        }
    }
    len
}
