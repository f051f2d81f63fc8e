// What one byte does to a receiver: a function for each definition of the byte rules. Whether a SysEx is open is asked
// first, as `sound` asks it, so that the compiler asks it once.
#![tactic(auto, unfolding(crate::specs::Receiver::takes_one, crate::specs::Bytes::step_of))]

ghost use Rattle.std.specs.Prelude.{◌≡◌, cond, not, ◌&&◌};
ghost use Rattle.framing.specs.Receiver.{under_of, holding_of, opened_of, takes_one, waits};
ghost use Rattle.framing.specs.Bytes.{step_to, is_real_time, status_of, added_of, finished_of, inside_of, data_of, outside_of, step_of};

use crate::{Event, Receiver, Stepped, fresh};

// Running status, or none, and nothing half received.
fn under(status: u8) -> Receiver
    ensures { result ≡ under_of status }
{
    Receiver {
        running: status,
        ..fresh()
    }
}

// A first data byte that waits for the second.
fn holding(status: u8, first: u8) -> Receiver
    ensures { result ≡ holding_of status first }
{
    Receiver {
        held: 1,
        waiting: first,
        ..under(status)
    }
}

// An open SysEx.
fn opened(stored: u16, over: u8) -> Receiver
    ensures { result ≡ opened_of stored over }
{
    Receiver {
        stored,
        inside: 1,
        over,
        ..fresh()
    }
}

// Kinds C and D.
pub(crate) fn takes_one(status: u8) -> bool
    ensures { result ≡ takes_one status }
{
    matches!(status, 0xC0..=0xDF)
}

// A status byte below F8; inside a SysEx, other than F7, it is a cut. The events are written here and not handed over: a
// handed event is put together and taken apart again at every byte, a written one is where the compiler jumps.
fn status_byte<const CUT: bool>(byte: u8) -> Stepped
    ensures { result ≡ status_of byte (cond CUT Event.Cut Event.Nothing) (cond CUT Event.CutAndOpen (Event.Collect 0)) }
{
    let event = if CUT { Event::Cut } else { Event::Nothing };
    if byte < 0xF0 {
        Stepped {
            receiver: under(byte),
            event,
        }
    } else if byte == 0xF0 {
        Stepped {
            receiver: opened(1, 0),
            event: if CUT {
                Event::CutAndOpen
            } else {
                Event::Collect(0)
            },
        }
    } else {
        Stepped {
            receiver: fresh(),
            event,
        }
    }
}

// A data byte of an open SysEx: the first that finds no room marks it.
fn added(receiver: Receiver, limit: u16) -> Stepped
    ensures { result ≡ added_of limit receiver }
{
    let place = receiver.stored;
    if place < limit {
        Stepped {
            receiver: opened(place + 1, receiver.over),
            event: Event::Collect(place),
        }
    } else {
        Stepped {
            receiver: opened(place, 1),
            event: Event::Nothing,
        }
    }
}

// F7 of an open SysEx.
fn finished(receiver: Receiver) -> Stepped
    ensures { result ≡ finished_of receiver }
{
    Stepped {
        receiver: fresh(),
        event: if receiver.over == 1 {
            Event::TooLong
        } else {
            Event::SysEx(receiver.stored)
        },
    }
}

// Nothing changes.
fn kept(receiver: Receiver) -> Stepped
    ensures { result ≡ step_to receiver Event.Nothing }
{
    Stepped {
        receiver,
        event: Event::Nothing,
    }
}

// A byte inside a SysEx. Data bytes are asked for first, since most are; `match` costs each 3 instructions of 132 more.
fn inside(receiver: Receiver, byte: u8, limit: u16) -> Stepped
    ensures { result ≡ cond (is_real_time byte) (step_to receiver Event.Nothing) (inside_of limit receiver byte) }
{
    if byte < 0x80 {
        added(receiver, limit)
    } else if 0xF8 <= byte {
        kept(receiver)
    } else if byte == 0xF7 {
        finished(receiver)
    } else {
        status_byte::<true>(byte)
    }
}

// A data byte outside a SysEx.
fn data_byte(receiver: Receiver, byte: u8) -> Stepped
    ensures { result ≡ data_of receiver byte }
{
    let status = receiver.running;
    if status == 0 {
        kept(receiver)
    } else if is_first(receiver) {
        Stepped {
            receiver: holding(status, byte),
            event: Event::Nothing,
        }
    } else if takes_one(status) {
        message(status, byte, 0)
    } else {
        message(status, receiver.waiting, byte)
    }
}

// Whether the next data byte is the first of two.
fn is_first(receiver: Receiver) -> bool
    ensures { result ≡ (not (takes_one receiver.running) && not (waits receiver)) }
{
    !takes_one(receiver.running) && receiver.held != 1
}

// A finished channel message.
fn message(status: u8, first: u8, second: u8) -> Stepped
    ensures { result ≡ step_to (under_of status) (Event.Channel status first second) }
{
    Stepped {
        receiver: under(status),
        event: Event::Channel(status, first, second),
    }
}

// A byte outside a SysEx.
fn outside(receiver: Receiver, byte: u8) -> Stepped
    ensures { result ≡ cond (is_real_time byte) (step_to receiver Event.Nothing) (outside_of receiver byte) }
{
    match byte {
        0x00..=0x7F => data_byte(receiver, byte),
        0xF8..=0xFF => kept(receiver),
        _ => status_byte::<false>(byte),
    }
}

// What one byte does. At most `limit` bytes of a SysEx are stored.
pub fn step(receiver: Receiver, byte: u8, limit: u16) -> Stepped
    ensures { result ≡ step_of limit receiver byte }
{
    if receiver.inside == 1 {
        inside(receiver, byte, limit)
    } else {
        outside(receiver, byte)
    }
}
