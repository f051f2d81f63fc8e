// One message from standard input, handed whole to a fresh box of the kind that a word names: the line that says what
// becomes of it.
#![tactic(auto)]

mod line;

ghost use Rattle.std.specs.Prelude.{◌≡◌, ◌≤◌, length, IfOk, IfSome, OnOk};
ghost use Rattle.std.specs.Io.KnownBytes.{IsAtEnd};
ghost use Rattle.why.specs.Kept.{buffer_size, kept_of, IsReasonOfAll};

use arrayvec::ArrayVec;
use kinds::Kind;
use line::Line;
use std::env::Env;
use std::io;
use std::io::{ErrorKind, Read, Write};
use sysex::{Check, Order};

// A byte more than the longest message of any kind: one that fills this is too long, whatever follows.
const SIZE: usize = podbox::LONGEST + 1;

// How many bytes are read at once, at most.
const PART: usize = 65536;

fn main(rt: HostRuntime) -> io::Result<()> {
    let mut word = [0; told::LONGEST];
    let Ok(kind) = told::kind(rt.arg(1, &mut word), &word, rt.arg(2, &mut [])) else {
        return eprintln!(rt; "why: the kind is pod, bass or pro");
    };
    match reason(&mut rt.reader(), kind) {
        Ok(judged) => println!(rt; "{}", Line(judged)),
        Err(_) => eprintln!(rt; "why: standard input cannot be read"),
    }
}

// What becomes of all that is read. The input is read to its end, so that whoever writes it is not cut off.
fn reason<R: Read>(reader: &mut R, kind: Kind) -> io::Result<Result<Order, Check>>
    ensures all { IfOk result (IsReasonOfAll kind (R.remaining reader.old)) }
    ensures end { OnOk result (IsAtEnd (R.remaining reader.new)) }
{
    let message = first_bytes(reader)?;
    Ok(podbox::reason(&message, kind))
}

// As many bytes as tell a message from one that is too long, of all that come up to the first end: whoever types is not
// asked for a second. A proved loop has to end, and nothing says that an input does: so its turns are counted, up to a
// number that no run reaches.
fn first_bytes<R: Read>(reader: &mut R) -> io::Result<ArrayVec<u8, SIZE>>
    ensures kept { IfOk result (λ message. IfSome (kept_of (R.remaining reader.old)) (λ kept. message.items ≡ kept)) }
    ensures most { IfOk result (λ message. length message.items ≤ buffer_size) }
    ensures end { OnOk result (IsAtEnd (R.remaining reader.new)) }
{
    let mut message = ArrayVec::new();
    let mut part = [0; PART];
    for _ in 0..u64::MAX {
        let count = reader.read(&mut part)?;
        if count == 0 {
            return Ok(message);
        }
        // What has no room is too much to be kept.
        let _ = message.write(&part[..count])?;
    }
    Err(io::Error::from(ErrorKind::TimedOut))
}
