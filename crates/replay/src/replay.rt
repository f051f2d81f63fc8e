// The script's message, and the desk that its commands are run on.
use crate::desk::Desk;
use crate::lent::Lent;
use crate::print;
use crate::script::Command;
use std::io;
use std::io::Write;

const MESSAGE: usize = 8192;

#[derive(Drop)]
pub(crate) struct Replay {
    // Lent is as much as it has.
    message: Lent<MESSAGE>,
    desk: Desk,
}

impl Replay {
    pub(crate) fn fresh() -> Replay {
        Replay {
            message: Lent::new(0, 0),
            desk: Desk::fresh(),
        }
    }

    pub(crate) fn run(&mut self, command: Command, out: &mut impl Write) -> io::Result<()> {
        let desk = &mut self.desk;
        match command {
            Command::Length(count) => self.message.lend(count),
            Command::Byte(place, byte) => self.message.set(place, byte),
            Command::HalfBytes(from, first) => self.message.set_half_bytes(from, first),
            Command::Memory(place, byte) => desk.memory.set(place, byte),
            Command::Mark(place, byte) => desk.marks.set(place, byte),
            Command::Kind(kind) => desk.kind = kind,
            Command::Player(player) => desk.player = player,
            Command::Channel(channel, omni) => {
                desk.settings.channel = channel;
                desk.settings.omni = omni;
            }
            Command::Revision(place, byte) => desk.set_revision(place, byte),
            Command::Lend(part, count) => desk.lend(part, count),
            Command::Receiver(socket, part, byte) => desk.set_receiver(socket, part, byte),
            Command::Controller(low) => desk.lengthen_controller(low),
            Command::Whole => desk.whole(self.message.lent(), out)?,
            Command::OnSocket(socket, byte) => desk.on_socket(socket, byte, out)?,
            Command::MessageOn(socket) => {
                for byte in self.message.lent() {
                    desk.on_socket(socket, *byte, out)?;
                }
            }
            Command::Moves => desk.moves(self.message.lent(), out)?,
            Command::Scale(value) => desk.scale(value, out)?,
            Command::ShowBack => desk.show_back(out)?,
            Command::Amp(model) => desk.amp(model, out)?,
            Command::Show(own) => desk.show(own, out)?,
        }
        Ok(())
    }

    // The lines at the end of the script.
    pub(crate) fn end(&self, out: &mut impl Write) -> io::Result<()> {
        print::end(&self.desk, out)
    }
}
