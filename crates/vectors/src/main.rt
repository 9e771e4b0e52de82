// Replays the stored lists in data/ and says what disagrees. The gate, which holds what this program writes, then fails. Nothing here is part of the port: it is
// a test of it.
#![tactic(auto)]

use std::io;

mod lists;
mod load;

// The lists in their order. The last one is wrong on purpose, so that the gate sees that a disagreement is found, and how it is printed.
const LISTS: [&str; 10] = [
    "check-values.txt",
    "serial-frames.txt",
    "serial-streams.txt",
    "serial-steps.txt",
    "serial-takes.txt",
    "i2c-frames.txt",
    "usb-transfers.txt",
    "documents.txt",
    "rust-answers.txt",
    "wrong.txt",
];

fn main(rt: HostRuntime) -> io::Result<()> {
    let mut room = [0u8; load::ROOM];
    for path in LISTS {
        lists::replay_at(&rt, path, &mut room)?;
    }
    Ok(())
}
