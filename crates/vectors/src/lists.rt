// A stored list, vector after vector.
use crate::load::{ROOM, load};
use std::io;
use std::io::{Eprint, Print};
use std::rt::Files;

// Replays the list that the path names, through the room that is lent. Of one that isn't replayed only standard error hears, and where that can't be said,
// nothing does.
pub(crate) fn replay_at<R: Files + Print + Eprint>(
    rt: &R,
    path: &str,
    room: &mut [u8; ROOM],
) -> io::Result<()> {
    match load(rt, path, room) {
        Ok(list) => replay(rt, path, list),
        Err(e) => {
            let _ = eprintln!(rt; "{path}: {e}");
            Ok(())
        }
    }
}

// Replays each vector of the list, and says where one disagrees, how many there are, and how many of them disagree. They are counted from 1. An empty
// line, and one that begins with '#', is no vector.
fn replay<R: Print>(rt: &R, path: &str, list: &[u8]) -> io::Result<()> {
    let mut vectors = 0u64;
    let mut disagree = 0u64;
    for line in list
        .split(|b| *b == b'\n')
        .filter(|line| !line.is_empty() && !line.starts_with(b"#"))
    {
        vectors = vectors.saturating_add(1);
        let mut agrees = true;
        for way in 0..vector::WAYS {
            if let Err(e) = vector::replay(line, way) {
                print!(rt; "{path}: vector {vectors}: {e}")?;
                rt.write_all(e.stored)?;
                rt.write_all(b"\n")?;
                agrees = false;
            }
        }
        if !agrees {
            disagree = disagree.saturating_add(1);
        }
    }
    println!(rt; "{path}: {vectors} vectors, {disagree} disagree")
}
