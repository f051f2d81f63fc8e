// What the calls are lent and told, kept from command to command.
use crate::lent::Lent;
use crate::receiver;
use crate::script::Part;
use framing::Receiver;
use sysex::Settings;

// Each buffer is longer than a call of any kind needs.
const MEMORY: usize = 3100;

const MARKS: usize = 40;

// Of a receive buffer and of the reply buffer.
const SIZE: usize = 5800;

#[derive(Drop)]
pub(crate) struct Socket {
    pub(crate) receiver: Receiver,
    pub(crate) receive: Lent<SIZE>,
}

#[derive(Drop)]
pub(crate) struct Desk {
    // The number of a kind, or of none.
    pub(crate) kind: u32,
    // The number of a player, or of none.
    pub(crate) player: u32,
    pub(crate) settings: Settings,
    pub(crate) memory: Lent<MEMORY>,
    pub(crate) marks: Lent<MARKS>,
    pub(crate) sockets: [Socket; 2],
    pub(crate) reply: Lent<SIZE>,
    // How many bytes of memory the screen is lent as the programs, and from which place on as the own buffer.
    pub(crate) programs: u16,
    pub(crate) own: u16,
    pub(crate) controller: u32,
    // How many calls there were.
    pub(crate) calls: u64,
}

impl Socket {
    fn fresh() -> Socket {
        Socket {
            receiver: framing::fresh(),
            receive: Lent::new(0, 5193),
        }
    }
}

impl Desk {
    // As much is lent as a call of a POD needs: what second/REPLAY.md says is lent at first.
    pub(crate) fn fresh() -> Desk {
        Desk {
            kind: kinds::POD,
            player: 0,
            settings: podbox::FRESH_SETTINGS,
            memory: Lent::new(0, 2736),
            marks: Lent::new(1, 38),
            sockets: [Socket::fresh(), Socket::fresh()],
            reply: Lent::new(0, 5193),
            programs: 2592,
            own: 2592,
            controller: 0,
            calls: 0,
        }
    }

    // Any number above 0 is that of socket 1.
    pub(crate) fn socket(&mut self, number: u32) -> &mut Socket {
        &mut self.sockets[number.min(1) as usize]
    }

    pub(crate) fn lend(&mut self, part: Part, count: u16) {
        match part {
            Part::Memory => self.memory.lend(count),
            Part::Receive0 => self.sockets[0].receive.lend(count),
            Part::Receive1 => self.sockets[1].receive.lend(count),
            Part::Reply => self.reply.lend(count),
            Part::Marks => self.marks.lend(count),
            Part::Programs => self.programs = count,
            Part::Own => self.own = count,
        }
    }

    // A match and no array: Settings has a field for each, as they come from C.
    pub(crate) fn set_revision(&mut self, place: u8, byte: u8) {
        match place % 4 {
            0 => self.settings.revision0 = byte,
            1 => self.settings.revision1 = byte,
            2 => self.settings.revision2 = byte,
            _ => self.settings.revision3 = byte,
        }
    }

    pub(crate) fn set_receiver(&mut self, socket: u8, part: u8, byte: u8) {
        let socket = self.socket(u32::from(socket % 2));
        socket.receiver = receiver::with_part(socket.receiver, part, byte);
    }

    // Two bytes more at the bottom of the controller's number; what stood above its lowest two is lost.
    pub(crate) fn lengthen_controller(&mut self, low: u16) {
        self.controller = self.controller % 65536 * 65536 + u32::from(low);
    }
}
