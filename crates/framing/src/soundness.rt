// When a receiver is sound. The sentence that says it asks different things while a SysEx is open and while none is, so
// that is asked first, and then each number once. In one function, or as a `match` of the whole receiver, it costs a byte
// 16 instructions of 132 more: the compiler then reads each number by itself before it asks.
#![tactic(auto, unfolding(crate::specs::Receiver::takes_two, crate::specs::Receiver::is_written, crate::specs::Receiver::count_right, crate::specs::Receiver::running_right, crate::specs::Receiver::waiting_right, crate::specs::Receiver::long_is_full, crate::specs::Receiver::sound_of))]

ghost use Rattle.std.specs.Prelude.{◌≡◌};
ghost use Rattle.framing.specs.Receiver.{takes_two, sound_of};

use crate::{Receiver, bytes};

// A channel status of another kind than C and D.
fn takes_two(status: u8) -> bool
    ensures { result ≡ takes_two status }
{
    matches!(status, 0x80..=0xEF) && !bytes::takes_one(status)
}

// A receiver with an open SysEx: it is counted, and nothing runs or waits.
fn sound_open(receiver: Receiver, limit: u16) -> bool
    requires { receiver.inside ≡ 1 }
    ensures { result ≡ sound_of limit receiver }
{
    1 <= receiver.stored
        && receiver.stored <= limit
        && matches!(
            receiver,
            Receiver {
                running: 0,
                held: 0,
                waiting: 0,
                ..
            }
        )
        && match receiver.over {
            0 => true,
            1 => receiver.stored == limit,
            _ => false,
        }
}

// A receiver with none: nothing is counted.
fn sound_shut(receiver: Receiver, limit: u16) -> bool
    requires { receiver.inside ≡ 1 → ⊥ }
    ensures { result ≡ sound_of limit receiver }
{
    matches!(
        receiver,
        Receiver {
            inside: 0,
            stored: 0,
            over: 0,
            ..
        }
    ) && if receiver.held == 1 {
        sound_held(receiver, limit)
    } else {
        sound_clear(receiver, limit)
    }
}

// A data byte waits.
fn sound_held(receiver: Receiver, limit: u16) -> bool
    requires { (receiver.inside ≡ 0) × (receiver.stored ≡ 0) × (receiver.over ≡ 0) × (receiver.held ≡ 1) }
    ensures { result ≡ sound_of limit receiver }
{
    receiver.waiting <= 0x7F && takes_two(receiver.running)
}

// None waits.
fn sound_clear(receiver: Receiver, limit: u16) -> bool
    requires { (receiver.inside ≡ 0) × (receiver.stored ≡ 0) × (receiver.over ≡ 0) × (receiver.held ≡ 1 → ⊥) }
    ensures { result ≡ sound_of limit receiver }
{
    matches!(
        receiver,
        Receiver {
            held: 0,
            waiting: 0,
            running: 0 | 0x80..=0xEF,
            ..
        }
    )
}

// Whether a receiver is sound. At most `limit` bytes of a SysEx are stored.
pub fn sound(receiver: Receiver, limit: u16) -> bool
    ensures { result ≡ sound_of limit receiver }
{
    if receiver.inside == 1 {
        sound_open(receiver, limit)
    } else {
        sound_shut(receiver, limit)
    }
}
