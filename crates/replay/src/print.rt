// The lines: one for an answer, and those at the end.
use crate::desk::Desk;
use crate::{lent, receiver};
use ground::Refusal;
use std::io;
use std::io::Write;
use sysex::{Answer, Answered};

// The line of a call of the box, and a second with its reply where there is one.
pub(crate) fn answered(
    desk: &Desk,
    letter: char,
    call: u64,
    answer: Answered,
    out: &mut impl Write,
) -> io::Result<()> {
    let [one, two] = &desk.sockets;
    let number = sysex::answer_number(answer);
    let length = sysex::answer_length(answer);
    write!(out, "{letter}\t{call}\t{number}\t{length}")?;
    for buffer in [
        desk.memory.bytes(),
        desk.marks.bytes(),
        desk.reply.bytes(),
        one.receive.bytes(),
        two.receive.bytes(),
    ] {
        write!(out, "\t{}", digest(buffer))?;
    }
    let first_receiver = receiver::number(one.receiver);
    let second_receiver = receiver::number(two.receiver);
    writeln!(out, "\t{first_receiver}\t{second_receiver}")?;
    if let Ok(Answer::Sent(length)) = answer {
        let (reply, _) = lent::cut(desk.reply.bytes(), usize::from(length));
        hex('r', reply, out)?;
    }
    Ok(())
}

// The line of a controller's value, of whether an amp model is known, or of a refusal.
pub(crate) fn value(letter: char, call: u64, value: u32, out: &mut impl Write) -> io::Result<()> {
    writeln!(out, "{letter}\t{call}\t{value}")
}

// The line of what the screen is handed, and a second with its bytes where it is not refused.
pub(crate) fn shown(
    call: u64,
    part: Result<&[u8], Refusal>,
    out: &mut impl Write,
) -> io::Result<()> {
    match part {
        Ok(bytes) => {
            let length = bytes.len();
            writeln!(out, "X\t{call}\t0\t{length}\t{}", digest(bytes))?;
            hex('x', bytes, out)
        }
        Err(refusal) => writeln!(out, "X\t{call}\t{}\t0\t0", u8::from(refusal)),
    }
}

// The lines at the end of the script.
pub(crate) fn end(desk: &Desk, out: &mut impl Write) -> io::Result<()> {
    hex('m', desk.memory.bytes(), out)?;
    hex('k', desk.marks.bytes(), out)?;
    writeln!(out, "c\t{}", desk.calls)
}

// How many bytes are spelled, and then written, at a time.
const SPELLED: usize = 256;

// A line with bytes in hex. The digits are from a table: by `{byte:02x}` a byte takes many times as long.
pub(crate) fn hex(letter: char, bytes: &[u8], out: &mut impl Write) -> io::Result<()> {
    write!(out, "{letter}\t")?;
    for part in bytes.chunks(SPELLED) {
        let mut digits = [[0; 2]; SPELLED];
        for (two, byte) in digits.iter_mut().zip(part) {
            *two = [digit(byte / 16), digit(byte % 16)];
        }
        let (written, _) = lent::cut(digits.as_flattened(), 2 * part.len());
        out.write_all(written)?;
    }
    out.write_all(b"\n")
}

fn digit(half_byte: u8) -> u8 {
    b"0123456789abcdef"[half_byte as usize % 16]
}

// Each byte times its place, counted from 1, summed: going down from the last place, the bytes so far are added at each, so
// that a byte counts as often as its place says. The sweep's is its own, of 32 bits, as its lines are.
fn digest(bytes: &[u8]) -> u64 {
    let from_the_end = bytes.iter().rev();
    let (_, digest) = from_the_end.fold((0u64, 0u64), |(behind, digest), byte| {
        let from_here = behind.wrapping_add(u64::from(*byte));
        (from_here, digest.wrapping_add(from_here))
    });
    digest
}
