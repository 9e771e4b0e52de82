// Bytes into a part that is lent.
ghost use Rattle.std.specs.Prelude.{◌≡◌, length, take};
ghost use Rattle.checks.specs.Output.{at_start};

// Copies the bytes to the start of a part: as many as it has room for, and where it has more room, what is behind them keeps its content. It refuses
// nothing.
pub fn copy_over(part: &mut [u8], bytes: &[u8])
    ensures { part.new ≡ at_start (take (length part.old) bytes.now) part.old }
{
    let most = part.len().min(bytes.len());
    // By index: with `copy_from_slice` the archive needs memmove, and of a `zip` with `iter_mut` no proof knows what the part holds afterwards.
    for i in 0..most {
        part[i] = bytes[i];
    }
}
