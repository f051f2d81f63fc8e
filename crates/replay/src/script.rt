// A script: commands of four bytes.
use std::io;
use std::io::{ErrorKind, Read};

// The bytes of the next command. A rest of fewer than four bytes is the end, and a read that fails is an error.
pub(crate) fn read(script: &mut impl Read) -> io::Result<Option<[u8; 4]>> {
    let mut bytes = [0; 4];
    match script.read_exact(&mut bytes) {
        Ok(()) => Ok(Some(bytes)),
        Err(error) if error.kind() == ErrorKind::UnexpectedEof => Ok(None),
        Err(error) => Err(error),
    }
}

// What a command does, by its letter: it sets something, or it is a call.
#[derive(Clone, Copy)]
pub(crate) enum Command {
    // L, B and P: of the message.
    Length(u16),
    Byte(u16, u8),
    HalfBytes(u16, u8),
    // Y and A
    Memory(u16, u8),
    Mark(u16, u8),
    // T and O: numbers, of a kind and of a player or not.
    Kind(u32),
    Player(u32),
    // C and R: of the settings.
    Channel(u8, u8),
    Revision(u8, u8),
    // Z
    Lend(Part, u16),
    // E: a socket's number, and what of its receiver.
    Receiver(u8, u8, u8),
    // N
    Controller(u16),
    // W, S, M and V: calls of the box.
    Whole,
    OnSocket(u32, u8),
    MessageOn(u32),
    Moves,
    // K, D and G: calls for a value.
    Scale(u32),
    ShowBack,
    Amp(u32),
    // X: the screen.
    Show(u32),
}

// What Z lends of.
#[derive(Clone, Copy)]
pub(crate) enum Part {
    Memory,
    Receive0,
    Receive1,
    Reply,
    Marks,
    // The screen is lent two parts of memory: the programs at its start, and the own buffer from a place on to its end.
    Programs,
    Own,
}

impl From<u8> for Part {
    fn from(number: u8) -> Part {
        match number % 7 {
            0 => Part::Memory,
            1 => Part::Receive0,
            2 => Part::Receive1,
            3 => Part::Reply,
            4 => Part::Marks,
            5 => Part::Programs,
            _ => Part::Own,
        }
    }
}

// No command has this letter.
#[derive(Clone, Copy)]
pub(crate) struct NoCommand;

impl TryFrom<[u8; 4]> for Command {
    type Error = NoCommand;

    fn try_from(bytes: [u8; 4]) -> Result<Command, NoCommand> {
        let [letter, a, b, v] = bytes;
        let n = u16::from_le_bytes([a, b]);
        // So that numbers far above 1 come too.
        let socket = u32::from_le_bytes([a, 0, 0, b]);
        let wide = u32::from_le_bytes([a, b, 0, v]);
        match letter {
            b'L' => Ok(Command::Length(n)),
            b'B' => Ok(Command::Byte(n, v)),
            b'P' => Ok(Command::HalfBytes(n, v)),
            b'Y' => Ok(Command::Memory(n, v)),
            b'A' => Ok(Command::Mark(n, v)),
            b'T' => Ok(Command::Kind(wide)),
            b'O' => Ok(Command::Player(wide)),
            b'C' => Ok(Command::Channel(a, b)),
            b'R' => Ok(Command::Revision(a, v)),
            b'Z' => Ok(Command::Lend(Part::from(v), n)),
            b'E' => Ok(Command::Receiver(b, a, v)),
            b'N' => Ok(Command::Controller(n)),
            b'W' => Ok(Command::Whole),
            b'S' => Ok(Command::OnSocket(socket, v)),
            b'M' => Ok(Command::MessageOn(socket)),
            b'V' => Ok(Command::Moves),
            b'K' => Ok(Command::Scale(wide)),
            b'D' => Ok(Command::ShowBack),
            b'G' => Ok(Command::Amp(wide)),
            b'X' => Ok(Command::Show(wide)),
            _ => Err(NoCommand),
        }
    }
}
