// The edit buffer that a sweep begins with, and what is written to it and read off it.
ghost use Rattle.std.specs.Prelude.{◌+◌, ◌*◌, ◌≤◌, ◌<◌};
ghost use Rattle.kinds.specs.Kinds.{largest};

use kinds::LARGEST;

// As long as the largest edit buffer: one length for every kind.
pub(crate) type Edit = [u8; LARGEST];

// The buffer for a value, with byte 46 at a setting.
pub(crate) fn made(value: u32, setting: u8) -> Edit {
    let mut edit = [0; LARGEST];
    fill(&mut edit, value);
    edit[28] = (value % 3) as u8;
    edit[46] = setting;
    edit
}

// Bytes that differ from place to place and from value to value. The value is reduced first so that any may come.
fn fill(edit: &mut Edit, value: u32) {
    for (place, byte) in edit.iter_mut().enumerate() {
        *byte = ((37 * place as u32 + 5 * (value % 256) + 11) % 256) as u8;
    }
}

// Each byte times its place, counted from 1, summed: a byte at another place weighs something else.
pub(crate) fn weighed(edit: &Edit) -> u32 {
    let mut sum = 0;
    for (place, byte) in edit.iter().enumerate() {
        sum += weight(place as u32, *byte);
    }
    sum
}

fn weight(place: u32, byte: u8) -> u32
    requires { place < largest }
    ensures { result ≤ largest * 255 }
{
    (place + 1) * byte as u32
}

// A number's bytes, lowest first, from a place on: as many as the row says, which `to_le_bytes` would want bounded.
pub(crate) fn put(edit: &mut Edit, place: usize, width: usize, number: u32)
    requires { place + width ≤ largest }
{
    let mut rest = number;
    for byte in &mut edit[place..place + width] {
        *byte = (rest % 256) as u8;
        rest /= 256;
    }
}
