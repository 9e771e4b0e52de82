// Reads a serial line's raw bytes from standard input to its end, and writes each packet as a line of lower-case hex, then a closing line. What each
// read brings is listed and written before the next one, so that it can follow a live line. Which bytes are a packet, and every byte of the text,
// `listing` decides.
#![tactic(auto)]

ghost use Rattle.std.specs.Prelude.{◌≡◌, ◌≤◌, length, IfOk};
ghost use Rattle.receive.specs.Follow.{ListedOn};

use serial::{Receiver, STORED_SIZE};
use std::io;
use std::io::{Eprint, Input, Print, Read};

// The bytes of one read, and the room that `list` asks for them: two of text for each, and for each that a receiver may have stored before.
const READ: usize = 32768;

const TEXT: usize = 2 * READ + 2 * STORED_SIZE;

// A failure, which standard error has heard of.
#[derive(Clone, Copy, Debug)]
struct Reported;

// A line that is being read: the receiver, and how many bytes and packets there were.
#[derive(Clone, Copy, Debug, PartialEq, Eq)]
struct Line {
    receiver: Receiver,
    bytes: u64,
    packets: u64,
}

impl Line {
    // Lists the bytes that came, from the receiver that the last ones left, and writes the text. After a failure the line is as it was.
    fn list_on<R: Print + Eprint + AllocGlobal>(
        &mut self,
        rt: &R,
        input: &[u8],
        text: &mut [u8],
    ) -> Result<(), Reported>
        ensures { ListedOn self.old input.now result self.new }
    {
        let listed = listing::list(self.receiver, input, text);
        // no refusal comes: the receiver began fresh, and the text has its room
        let size = listed
            .answer
            .map_err(|_| complain(rt, "the listing was refused"))?;
        write(rt, &text[..size])?;
        self.receiver = listed.state;
        self.bytes = self.bytes.saturating_add(input.len() as u64);
        self.packets = self.packets.saturating_add(listed.packets as u64);
        Ok(())
    }
}

fn main(rt: HostRuntime) {
    let mut input = [0u8; READ];
    let mut text = [0u8; TEXT];
    // whatever failed is said by then
    let _ = follow(&rt, &mut input, &mut text);
}

// Reads until the input's end, and closes; or until a failure. A proved loop has to end, and nothing says that a line does: so its turns are counted,
// to a number that no run uses up.
fn follow<R: Input + Print + Eprint + AllocGlobal>(
    rt: &R,
    input: &mut [u8],
    text: &mut [u8],
) -> Result<(), Reported> {
    let mut reader = rt.reader();
    let mut line = Line {
        receiver: Receiver::fresh(),
        bytes: 0,
        packets: 0,
    };
    for _ in 0..u64::MAX {
        let size = read(rt, &mut reader, input)?;
        if size == 0 {
            return close(rt, line);
        }
        line.list_on(rt, &input[..size], text)?;
    }
    Err(complain(rt, "more reads than it counts"))
}

// One read, and how many bytes it brought.
fn read<R: Eprint + AllocGlobal, I: Read>(
    rt: &R,
    reader: &mut I,
    input: &mut [u8],
) -> Result<usize, Reported>
    ensures { IfOk result (λ size. size ≤ length input.new) }
{
    reader
        .read(input)
        .map_err(|error| fail(rt, "standard input", &error))
}

// Writes the text.
fn write<R: Print + Eprint + AllocGlobal>(rt: &R, text: &[u8]) -> Result<(), Reported> {
    rt.write_all(text)
        .map_err(|error| fail(rt, "standard output", &error))
}

// The closing line.
fn close<R: Print + Eprint + AllocGlobal>(rt: &R, line: Line) -> Result<(), Reported> {
    let mut text = [0u8; 64];
    let size = listing::closing_line(line.bytes, line.packets, &mut text);
    write(rt, &text[..size])
}

// Says what failed, with the system's reason. Where that can't be said either, nothing hears of it.
fn fail<R: Eprint + AllocGlobal>(rt: &R, what: &str, error: &io::Error) -> Reported {
    let _ = say_why(rt, what, error);
    Reported
}

// An error's text ends with its number, which is left out.
fn say_why<R: Eprint + AllocGlobal>(rt: &R, what: &str, error: &io::Error) -> io::Result<()> {
    let text = format!(in rt.alloc(); "{error}")?;
    match text.as_str().split_once(" (os error ") {
        Some((reason, _)) => eprintln!(rt; "receive: {what}: {reason}"),
        None => eprintln!(rt; "receive: {what}: {text}"),
    }
}

// Says what stopped it.
fn complain<R: Eprint>(rt: &R, text: &str) -> Reported {
    let _ = eprintln!(rt; "receive: {text}");
    Reported
}
