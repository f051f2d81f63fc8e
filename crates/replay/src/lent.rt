// A buffer, of which a call is lent the first bytes.
ghost use Rattle.std.specs.Prelude.{◌≡◌, ◌≤◌, min, take, drop};

#[derive(Drop)]
pub(crate) struct Lent<const LENGTH: usize> {
    bytes: [u8; LENGTH],
    count: usize,
    ghost within: { count ≤ LENGTH },
}

impl<const LENGTH: usize> Lent<LENGTH> {
    // Filled with a byte.
    pub(crate) fn new(byte: u8, count: u16) -> Lent<LENGTH> {
        Lent {
            bytes: [byte; LENGTH],
            count: usize::from(count).min(LENGTH),
        }
    }

    // A count above the buffer's own length is taken as that.
    pub(crate) fn lend(&mut self, count: u16)
        ensures { self.new.count ≡ min count LENGTH }
    {
        self.count = usize::from(count).min(LENGTH);
    }

    // All of it, whatever is lent.
    pub(crate) fn bytes(&self) -> &[u8] {
        &self.bytes
    }

    pub(crate) fn lent(&self) -> &[u8] {
        &self.bytes[..self.count]
    }

    // As a slice first, since the check lends no part of an array whose length is a parameter.
    pub(crate) fn lent_mut(&mut self) -> &mut [u8] {
        let count = self.count;
        let bytes = &mut self.bytes;
        let all = &mut bytes[..];
        &mut all[..count]
    }

    // A place past the end is counted from the start again.
    pub(crate) fn set(&mut self, place: u16, byte: u8) {
        if let Some(place) = usize::from(place).checked_rem(LENGTH) {
            self.bytes[place] = byte;
        }
    }

    // Half bytes that differ from place to place, from a place on to the end of what is lent.
    pub(crate) fn set_half_bytes(&mut self, from: u16, first: u8) {
        let places = self.lent_mut().iter_mut().enumerate();
        for (place, byte) in places.skip(usize::from(from)) {
            *byte = (first % 16 + 7 * (place % 16) as u8) % 16;
        }
    }
}

// The first bytes, and those behind: a count above the length is taken as that.
pub(crate) fn cut(bytes: &[u8], count: usize) -> (&[u8], &[u8])
    ensures before { result.0.now ≡ take count bytes.now }
    ensures behind { result.1.now ≡ drop count bytes.now }
{
    bytes.split_at(count.min(bytes.len()))
}
