// The frame check of the serial binding (DSP0253). It is the register of RFC 1662's FCS as it stands, without complement; the sender puts its high byte
// first. A slice goes by a table of 256 entries, a single byte by shifts.
ghost use Rattle.std.specs.Prelude.{◌≡◌};
ghost use Rattle.checks.specs.Register.{byte_step};
ghost use Rattle.checks.specs.FrameCheck.{frame_register, frame_check_from, frame_check};

use crate::frame_entries::frame_table;

// What the register starts with.
pub const FRAME_START: u16 = 0xffff;

// The frame check of the bytes, of any number of them, also none (0xffff). It refuses nothing and changes nothing.
pub fn frame_check(bytes: &[u8]) -> u16
    ensures { result ≡ frame_check bytes.now }
{
    frame_check_from(FRAME_START, bytes)
}

// The register after the bytes, from any register on: a later call goes on where an earlier one stopped. After no bytes it is the register
// that went in. It refuses nothing and changes nothing.
pub fn frame_check_from(register: u16, bytes: &[u8]) -> u16
    ensures { result ≡ frame_check_from register bytes.now }
{
    let table = frame_table();
    // Casts by `as`, here and below, are the language's own between numbers that fit.
    let reg = bytes.iter().fold(register as u32, |reg, &b| {
        let low = ((reg ^ (b as u32)) % 256) as usize;
        (reg >> 8) ^ (table[low] as u32)
    });
    reg as u16
}

// The register after one byte, from any register on, for a loop that does more with a byte than to check it. It is kept in 32 bits, which costs less
// than 16. It refuses nothing and changes nothing.
pub fn frame_next(register: u32, b: u8) -> u32
    ensures { result ≡ byte_step frame_register register b }
{
    let entered = register ^ (b as u32);
    let spread = (entered ^ (entered << 4)) % 256;
    ((register >> 8) ^ (spread << 3)) ^ ((spread << 8) | (spread >> 4))
}
