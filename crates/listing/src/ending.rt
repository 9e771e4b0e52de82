// The closing line, which says how much was read.
ghost use Rattle.std.specs.Prelude.{◌+◌, ◌≤◌, ◌≡◌, ◌++◌, length};
ghost use Rattle.checks.specs.Output.{at_start, put_at};
ghost use Rattle.io.specs.Counts.{IsPrefixLen};
ghost use Rattle.text.specs.Decimal.{decimal};
ghost use Rattle.listing.specs.Closing.{closing_line};

// Puts a word and a number behind it from `place` on. It returns the place behind them; `text::put` says why it stays a parameter.
fn put_count(word: &[u8], n: u64, out: &mut [u8], place: usize) -> usize
    requires { place + length (word.now ++ decimal n) ≤ length out.old }
    ensures value { result ≡ place + length (word.now ++ decimal n) }
    ensures out_after { out.new ≡ put_at place (word.now ++ decimal n) out.old }
{
    let number_at = text::put(word, out, place);
    text::put_decimal(n, out, number_at)
}

// Writes the closing line, `end: bytes N packets M` and a line feed, at the output's start and answers its length, which is at most 61. The
// bytes beyond it keep their content.
pub fn closing_line(bytes: u64, packets: u64, out: &mut [u8; 64]) -> usize
    ensures prefix_len { IsPrefixLen result out.new }
    ensures value { result ≡ length (closing_line bytes packets) }
    ensures out_after { out.new ≡ at_start (closing_line bytes packets) out.old }
{
    let packets_at = put_count(b"end: bytes ", bytes, out, 0);
    let end = put_count(b" packets ", packets, out, packets_at);
    text::put(b"\n", out, end)
}
