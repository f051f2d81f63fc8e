// A fresh box, what its socket 0 is lent, and the place of the next byte.
use crate::lines;
use crate::lines::Lines;
use framing::Receiver;
use kinds::Kind;
use podbox::{Buffer, Memory};
use programs::MARKS;
use std::io;
use sysex::Answered;

#[derive(Drop)]
pub(crate) struct Listing {
    kind: Kind,
    receiver: Receiver,
    memory: Memory,
    marks: [u8; MARKS],
    receive: Buffer,
    reply: Buffer,
    place: u64,
}

impl Listing {
    pub(crate) fn new(kind: Kind) -> Listing {
        Listing {
            kind,
            receiver: framing::fresh(),
            memory: [0; podbox::MEMORY],
            marks: [1; MARKS],
            receive: [0; podbox::LONGEST],
            reply: [0; podbox::LONGEST],
            place: 0,
        }
    }

    // The lines of a part of the input are written before the next is waited for.
    pub(crate) fn list(&mut self, rt: &impl Print, part: &[u8]) -> io::Result<()> {
        let mut lines: Lines = [0; lines::SIZE];
        let mut used = 0;
        for byte in part {
            let answer = self.take(*byte);
            used = lines::put_line(rt, &mut lines, used, self.place, answer)?;
            // It would begin again after 2^64 bytes, which no run reaches.
            self.place = self.place.wrapping_add(1);
        }
        lines::write(rt, &lines, used)
    }

    // What a byte is answered.
    fn take(&mut self, byte: u8) -> Answered {
        podbox::take_byte(
            &mut self.receiver,
            0,
            byte,
            self.kind as u32,
            podbox::FRESH_SETTINGS,
            &mut self.memory,
            &mut self.marks,
            &mut self.receive,
            &mut self.reply,
        )
    }
}
