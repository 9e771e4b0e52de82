// Bytes as they are, put at a place.
ghost use Rattle.std.specs.Prelude.{◌+◌, ◌≡◌, leb, length};
ghost use Rattle.io.specs.Counts.{IsPrefixLen};
ghost use Rattle.text.specs.Put.{put_end, put_text};

// Whether `size` bytes fit from `place` on into an output of `room` bytes.
pub(crate) fn has_room(place: usize, size: usize, room: usize) -> bool
    ensures { result ≡ leb (place + size) room }
{
    place.checked_add(size).is_some_and(|end| end <= room)
}

// Puts the text's bytes as they are from `place` on and answers the place behind them. Where they do not fit it writes nothing and answers the output's
// length: it may not fail. The place stays a parameter beside the output, here and in all that puts: a struct that held the lent output would have to promise at
// each call that it still holds the same one, which is no plainer.
#[tactic(auto, using(crate::proofs::PutLaws::puts), unfolding(crate::specs::Put::put_end, crate::specs::Put::put_text))]
pub fn put(text: &[u8], out: &mut [u8], place: usize) -> usize
    ensures value { result ≡ put_end place text.now (length out.old) }
    ensures out_after { out.new ≡ put_text place text.now out.old }
    ensures prefix_len { IsPrefixLen result out.new }
{
    if has_room(place, text.len(), out.len()) {
        checks::copy_over(&mut out[place..place + text.len()], text);
        return place + text.len();
    }
    out.len()
}
