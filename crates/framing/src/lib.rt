// From bytes to finished messages: the receiver by value, and what one byte does to it. It knows no memory and no meaning.
#![tactic(auto)]

mod bytes;
mod soundness;

ghost use Rattle.std.specs.Prelude.{◌≡◌};
ghost use Rattle.framing.specs.Receiver.{fresh};

pub use bytes::step;
pub use soundness::sound;

// What a socket keeps between its bytes: plain numbers, so that any bits C may lend are a value. All zero is fresh.
#[repr(C)]
#[derive(Clone, Copy, Debug, Default, PartialEq, Eq)]
pub struct Receiver {
    // How many bytes of the open SysEx are stored.
    pub stored: u16,
    // 1 while a SysEx is open.
    pub inside: u8,
    // 1 while the open SysEx is marked too long.
    pub over: u8,
    // Running status, or 0 for none.
    pub running: u8,
    // 1 while a first data byte waits for the second.
    pub held: u8,
    // That byte, and 0 where none waits.
    pub waiting: u8,
}

// Nothing open, stored, waiting or running.
pub fn fresh() -> Receiver
    ensures { result ≡ fresh }
{
    Receiver::default()
}

// What a byte did, and what it leaves to do for whoever has the receive buffer. `Nothing` is an event among others, and the
// second data byte 0 where there is none is document 01's (`Message` of sockets/specs/Framer): so neither is an Option.
#[derive(Clone, Copy, Debug, PartialEq, Eq)]
pub enum Event {
    Nothing,
    // The byte belongs at this place of the receive buffer.
    Collect(u16),
    // A status byte cut the open SysEx.
    Cut,
    // F0 cut the open SysEx and belongs at place 0.
    CutAndOpen,
    // F7 ended a SysEx that was marked too long.
    TooLong,
    // A SysEx is finished; this many bytes of it are stored.
    SysEx(u16),
    // A channel message is finished: status, first and second data byte, the second 0 where there is one only.
    Channel(u8, u8, u8),
}

// The event stands first: behind the receiver it would be written last, and the compiler would write it through memory.
#[derive(Clone, Copy, Debug, PartialEq, Eq)]
pub struct Stepped {
    pub event: Event,
    pub receiver: Receiver,
}
