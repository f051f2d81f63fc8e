// A field's number in its bytes, lowest first.
ghost use Rattle.std.specs.Prelude.{◌≡◌, ◌≤◌, ◌<◌, ◌+◌, length, get_or};
ghost use Rattle.kinds.specs.Kinds.{size_of};
ghost use Rattle.controls.specs.Applying.{store_row};
ghost use Rattle.controls.specs.Fields.{read_at, put_at, number_in};

use crate::control::Control;

impl Control {
    // The number in the row's bytes.
    pub(crate) fn read(self, edit: &[u8]) -> u32
        requires { size_of self.kind ≤ length edit.now }
        ensures { result ≡ number_in self.row edit.now }
    {
        read(edit, self.row.place as usize, self.row.width)
    }

    // The row's number for a value into the row's bytes.
    #[tactic(auto, unfolding(crate::specs::Applying::store_row))]
    pub(crate) fn store(self, v: u16, edit: &mut [u8])
        requires long { size_of self.kind ≤ length edit.old }
        requires data_byte { v ≤ 127 }
        ensures { edit.new ≡ store_row self.row v edit.old }
    {
        let number = self.next(v, edit);
        put(edit, self.row.place as usize, self.row.width, number);
    }
}

// Byte by byte, since a field has one, two or three: `from_le_bytes` would want an array filled up with zeros, and of
// `to_le_bytes` a copy of as many as the row says.

// A byte as a wide number.
fn byte_at(edit: &[u8], at: usize) -> u32
    requires { at < length edit.now }
    ensures { (result ≡ get_or edit.now at 0) × (result ≤ 255) }
{
    edit[at] as u32
}

// The number in one, two or three bytes from a place on.
fn read(edit: &[u8], place: usize, width: u8) -> u32
    requires le_width { (1 ≤ width) × (width ≤ 3) }
    requires width_in_bounds { place + width ≤ length edit.now }
    ensures { result ≡ read_at width place edit.now }
{
    let low = byte_at(edit, place);
    if width == 1 {
        return low;
    }
    let second = place + 1;
    let middle = byte_at(edit, second);
    if width == 2 {
        return low + 256 * middle;
    }
    low + 256 * (middle + 256 * byte_at(edit, second + 1))
}

// A number into one, two or three bytes from a place on.
fn put(edit: &mut [u8], place: usize, width: u8, number: u32)
    requires le_width { (1 ≤ width) × (width ≤ 3) }
    requires width_in_bounds { place + width ≤ length edit.old }
    ensures { edit.new ≡ put_at width place number edit.old }
{
    edit[place] = (number % 256) as u8;
    if width == 1 {
        return;
    }
    let second = place + 1;
    edit[second] = (number / 256 % 256) as u8;
    if width == 2 {
        return;
    }
    edit[second + 1] = (number / 256 / 256 % 256) as u8;
}
