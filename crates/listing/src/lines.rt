// Lines, collected so that many are written by one call.
ghost use Rattle.std.specs.Prelude.{◌<◌, IfOk};

use std::io;
use sysex::Answered;

pub(crate) const SIZE: usize = 4096;

pub(crate) type Lines = [u8; SIZE];

// The line of an answer whose number is not 0. Each function here takes how many bytes are collected, and gives back how
// many are then.
pub(crate) fn put_line(
    rt: &impl Print,
    lines: &mut Lines,
    used: usize,
    place: u64,
    answer: Answered,
) -> io::Result<usize> {
    let number = sysex::answer_number(answer);
    if number == 0 {
        return Ok(used);
    }
    let placed = put_field(rt, lines, used, place, b'\t')?;
    let numbered = put_field(rt, lines, placed, number as u64, b'\t')?;
    put_field(
        rt,
        lines,
        numbered,
        sysex::answer_length(answer) as u64,
        b'\n',
    )
}

// A number, and the byte that closes its field. (Built into its caller, where the numbers are known to be small, it takes
// half of the time.)
#[inline(always)]
fn put_field(
    rt: &impl Print,
    lines: &mut Lines,
    used: usize,
    number: u64,
    close: u8,
) -> io::Result<usize> {
    let mut text = itoa::Buffer::new();
    let written = put_all(rt, lines, used, text.format(number).as_bytes())?;
    put(rt, lines, written, close)
}

fn put_all(rt: &impl Print, lines: &mut Lines, before: usize, bytes: &[u8]) -> io::Result<usize> {
    let mut used = before;
    for byte in bytes {
        used = put(rt, lines, used, *byte)?;
    }
    Ok(used)
}

fn put(rt: &impl Print, lines: &mut Lines, used: usize, byte: u8) -> io::Result<usize> {
    let at = with_room(rt, lines, used)?;
    lines[at] = byte;
    Ok(at + 1)
}

// Where there is no room, what is collected is written.
fn with_room(rt: &impl Print, lines: &Lines, used: usize) -> io::Result<usize>
    ensures { IfOk result (λ at. at < 4096) }
{
    if used < SIZE {
        return Ok(used);
    }
    rt.write_all(lines)?;
    Ok(0)
}

// Writes what is collected.
pub(crate) fn write(rt: &impl Print, lines: &Lines, used: usize) -> io::Result<()> {
    if used < SIZE {
        return rt.write_all(&lines[..used]);
    }
    rt.write_all(lines)
}
