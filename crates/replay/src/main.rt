// Runs a script of calls, and prints each answer with digests of the buffers and with the receivers.
#![tactic(auto)]

mod calls;
mod desk;
mod lent;
mod print;
mod receiver;
mod replay;
mod script;

use replay::Replay;
use script::Command;
use std::io;
use std::io::{BufReader, BufWriter, Write};

// Command after command, to the end of the script. A proved loop has to end, and nothing says that an input does: so its
// turns are counted, up to a number that no run reaches.
fn main(rt: HostRuntime) -> io::Result<()> {
    let mut script = BufReader::new(rt.alloc(), rt.reader())?;
    let mut out = BufWriter::new(rt.alloc(), io::writer(&rt))?;
    let mut replay = Replay::fresh();
    for _ in 0..u64::MAX {
        let Some(bytes) = script::read(&mut script)? else {
            break;
        };
        if let Ok(command) = Command::try_from(bytes) {
            replay.run(command, &mut out)?;
        }
    }
    replay.end(&mut out)?;
    out.flush()
}
