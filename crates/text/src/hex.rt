// Hex, out and in: lower case, two digits for each byte.
ghost use Rattle.std.specs.Prelude.{◌+◌, ◌*◌, ◌/◌, ◌≤◌, ◌<◌, ◌≡◌, true, length, get_or, IfSome};
ghost use Rattle.checks.specs.Output.{at_start, put_at};
ghost use Rattle.io.specs.Counts.{IsPrefixLen};
ghost use Rattle.text.specs.Hex.{hex_all, hex_of, line_of};
ghost use Rattle.text.specs.Put.{put_end, put_text};
ghost use Rattle.text.specs.Read.{all_digits, hex_bytes, hex_output, hex_read, pair_value};

use crate::digits::{all_digits, digit, digit_value};
use crate::plain::has_room;

const LINE_FEED: u8 = b'\n';

// A byte's two digits from `place` on.
fn put_byte(b: u8, out: &mut [u8], place: usize)
    requires { place + 2 ≤ length out.old }
    ensures { out.new ≡ put_at place (hex_of b) out.old }
{
    out[place] = digit(b / 16);
    out[place + 1] = digit(b % 16);
}

// The digits of bytes that have their room. It returns the place behind them.
fn put_digits(bytes: &[u8], out: &mut [u8], start: usize) -> usize
    requires { start + length (hex_all bytes.now) ≤ length out.old }
    ensures value { result ≡ start + length (hex_all bytes.now) }
    ensures out_after { out.new ≡ put_at start (hex_all bytes.now) out.old }
{
    let mut place = start;
    for b in bytes {
        put_byte(*b, out, place);
        // the place behind, which is what is answered
        place += 2;
    }
    place
}

// Puts the bytes as hex from `place` on and answers the place behind it. Where it does not fit it writes nothing and answers the output's length.
#[tactic(auto, using(crate::proofs::PutLaws::puts), unfolding(crate::specs::Put::put_end, crate::specs::Put::put_text))]
pub fn put_hex(bytes: &[u8], out: &mut [u8], place: usize) -> usize
    ensures value { result ≡ put_end place (hex_all bytes.now) (length out.old) }
    ensures out_after { out.new ≡ put_text place (hex_all bytes.now) out.old }
    ensures prefix_len { IsPrefixLen result out.new }
{
    if has_room(place, 2 * bytes.len(), out.len()) {
        return put_digits(bytes, out, place);
    }
    out.len()
}

// Puts the bytes as hex with a line feed behind it from `place` on, and answers the place behind that. Where the line does not fit it writes nothing and
// answers the output's length. It stays beside `put_hex`: one function with an ending to choose would be longer than both.
#[tactic(auto, using(crate::proofs::PutLaws::puts), unfolding(crate::specs::Put::put_end, crate::specs::Put::put_text))]
pub fn put_line(bytes: &[u8], out: &mut [u8], place: usize) -> usize
    ensures value { result ≡ put_end place (line_of bytes.now) (length out.old) }
    ensures out_after { out.new ≡ put_text place (line_of bytes.now) out.old }
    ensures prefix_len { IsPrefixLen result out.new }
{
    if has_room(place, 2 * bytes.len() + 1, out.len()) {
        let end = put_digits(bytes, out, place);
        out[end] = LINE_FEED;
        return end + 1;
    }
    out.len()
}

// The byte of a text's pair of hex digits, the pairs counted from 0.
#[tactic(auto, using(crate::proofs::ReadLaws::digit_there, crate::proofs::ReadLaws::digit_some))]
fn pair_at(text: &[u8], i: usize) -> u8
    requires { (all_digits 16 text.now ≡ true) × (2 * i + 1 < length text.now) }
    ensures { result ≡ pair_value (get_or text.now (2 * i) 0) (get_or text.now (2 * i + 1) 0) }
{
    let high = digit_value(16, text[2 * i]).unwrap();
    let low = digit_value(16, text[2 * i + 1]).unwrap();
    high * 16 + low
}

// The bytes of a text of hex digits, put at the start of an output that has their room.
#[tactic(auto, using(crate::proofs::ReadLaws::pairs_end, checks::proofs::Output::put_none))]
fn put_pairs(text: &[u8], out: &mut [u8])
    requires { (all_digits 16 text.now ≡ true) × (length text.now / 2 ≤ length out.old) }
    ensures { out.new ≡ at_start (hex_bytes text.now) out.old }
{
    // By index: of a `zip` with `iter_mut` no proof knows what the output holds afterwards.
    for i in 0..text.len() / 2 {
        out[i] = pair_at(text, i);
    }
}

// Reads a hex text: an even number of lower-case hex digits, also none. Its bytes are put at the output's start, and the answer is how many they are. Any
// other text, and one whose bytes do not fit, is refused: no number, and nothing is written.
#[tactic(auto, using(crate::proofs::ReadLaws::pairs_length), unfolding(crate::specs::Read::hex_read, crate::specs::Read::hex_output))]
pub fn read_hex(text: &[u8], out: &mut [u8]) -> Option<usize>
    ensures value { result ≡ hex_read text.now (length out.old) }
    ensures out_after { out.new ≡ hex_output text.now out.old }
    ensures prefix_len { IfSome result (λ count. IsPrefixLen count out.new) }
{
    let count = text.len() / 2;
    if (text.len() % 2 == 0) && all_digits(16, text) && (count <= out.len()) {
        put_pairs(text, out);
        return Some(count);
    }
    None
}
