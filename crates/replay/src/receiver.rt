// A receiver's parts, each a byte: as E sets them, and all of them as one number.
use framing::Receiver;

// The two bytes of stored, then the others; there is no part 7.
fn parts(receiver: Receiver) -> [u8; 8] {
    let [low, high] = receiver.stored.to_le_bytes();
    [
        low,
        high,
        receiver.inside,
        receiver.over,
        receiver.running,
        receiver.held,
        receiver.waiting,
        0,
    ]
}

// The receiver with a byte as one of its parts.
pub(crate) fn with_part(receiver: Receiver, part: u8, byte: u8) -> Receiver {
    let mut parts = parts(receiver);
    parts[part as usize % 8] = byte;
    let [low, high, inside, over, running, held, waiting, _] = parts;
    Receiver {
        stored: u16::from_le_bytes([low, high]),
        inside,
        over,
        running,
        held,
        waiting,
    }
}

// Part above part: stored at the bottom, waiting at the top.
pub(crate) fn number(receiver: Receiver) -> u64 {
    u64::from_le_bytes(parts(receiver))
}
