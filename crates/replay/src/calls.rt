// The calls of the box, of the controllers, of the amp models and of the screen, and the line of each answer.
use crate::desk::Desk;
use crate::{lent, print};
use kinds::Kind;
use podbox::Move;
use programs::Player;
use std::io;
use std::io::Write;
use sysex::Answered;

impl Desk {
    // The number of a call: how many there were before. The count would begin again after 2^64 calls, which no run reaches.
    fn count(&mut self) -> u64 {
        let call = self.calls;
        self.calls = call.wrapping_add(1);
        call
    }

    pub(crate) fn whole(&mut self, message: &[u8], out: &mut impl Write) -> io::Result<()> {
        let call = self.count();
        let answer = podbox::whole_message(
            message,
            self.player,
            self.kind,
            self.settings,
            self.memory.lent_mut(),
            self.marks.lent_mut(),
            self.reply.lent_mut(),
        );
        print::answered(self, 'W', call, answer, out)
    }

    // A number of 0 has no line.
    pub(crate) fn on_socket(
        &mut self,
        socket: u32,
        byte: u8,
        out: &mut impl Write,
    ) -> io::Result<()> {
        let call = self.count();
        let answer = self.take(socket, byte);
        if sysex::answer_number(answer) == 0 {
            return Ok(());
        }
        print::answered(self, 'S', call, answer, out)
    }

    fn take(&mut self, socket: u32, byte: u8) -> Answered {
        let used = &mut self.sockets[socket.min(1) as usize];
        podbox::take_byte(
            &mut used.receiver,
            socket,
            byte,
            self.kind,
            self.settings,
            self.memory.lent_mut(),
            self.marks.lent_mut(),
            used.receive.lent_mut(),
            self.reply.lent_mut(),
        )
    }

    // The moves that the message holds, two bytes each. They are made one by one through the box's own functions; the
    // call of a whole list is played by C.
    pub(crate) fn moves(&mut self, message: &[u8], out: &mut impl Write) -> io::Result<()> {
        let call = self.count();
        let (moves, _) = message.as_chunks::<2>();
        let answer = self.make_moves(moves);
        print::answered(self, 'V', call, answer, out)?;
        if answer.is_ok() {
            let (numbers, _) = lent::cut(self.reply.bytes(), moves.len());
            print::hex('n', numbers, out)?;
        }
        Ok(())
    }

    // Move after move, the number of each at its place in what is lent of the reply buffer.
    fn make_moves(&mut self, moves: &[[u8; 2]]) -> Answered {
        let answer = podbox::list_answer(
            moves.len(),
            self.player,
            self.kind,
            self.settings,
            self.memory.lent().len(),
            self.reply.lent().len(),
        )?;
        let player = Player::try_from(self.player)?;
        let kind = Kind::try_from(self.kind)?;
        for (number, one) in self.reply.lent_mut().iter_mut().zip(moves) {
            let [controller, value] = *one;
            let made = podbox::make_move(
                Move { controller, value },
                player,
                kind,
                self.memory.lent_mut(),
            );
            *number = sysex::answer_number(made);
        }
        Ok(answer)
    }

    // What scaling the controller gives for a value. It and the next two differ in what they call and hand over.
    pub(crate) fn scale(&mut self, value: u32, out: &mut impl Write) -> io::Result<()> {
        let call = self.count();
        let number = costerbloom::costerbloom_scale(self.controller, value, self.kind);
        print::value('K', call, number, out)
    }

    // Whether an amp model is known.
    pub(crate) fn amp(&mut self, model: u32, out: &mut impl Write) -> io::Result<()> {
        let call = self.count();
        let number = costerbloom::costerbloom_amp(model, self.kind);
        print::value('G', call, number, out)
    }

    // The controller shown back from what is lent of memory.
    pub(crate) fn show_back(&mut self, out: &mut impl Write) -> io::Result<()> {
        let call = self.count();
        let number = costerbloom::costerbloom_back(
            self.controller,
            self.player,
            self.kind,
            self.memory.lent(),
        );
        print::value('D', call, number, out)
    }

    // What the screen is handed: the program of the controller's number, or the own buffer.
    pub(crate) fn show(&mut self, own: u32, out: &mut impl Write) -> io::Result<()> {
        let call = self.count();
        let memory = self.memory.bytes();
        let (programs, _) = lent::cut(memory, usize::from(self.programs));
        let (_, buffer) = lent::cut(memory, usize::from(self.own));
        let part = screen::screen(
            self.controller,
            own,
            self.player,
            self.kind,
            programs,
            buffer,
        );
        print::shown(call, part, out)
    }
}
