// Standard input as socket 0 of a fresh box, of the kind that a word names: a line for each byte whose number is not 0.
#![tactic(auto)]

mod lines;
mod listing;

use kinds::Kind;
use listing::Listing;
use std::env::Env;
use std::io;
use std::io::{Input, Read};

// How many bytes are read at once, at most.
const PART: usize = 65536;

fn main(rt: HostRuntime) -> io::Result<()> {
    let mut word = [0; told::LONGEST];
    match told::kind(rt.arg(1, &mut word), &word, rt.arg(2, &mut [])) {
        Ok(kind) => list(&rt, kind),
        Err(_) => eprintln!(rt; "listing: the kind is pod, bass or pro"),
    }
}

// Part after part, to the end of the input, or to where it cannot be read, which is said on standard error. A proved loop
// has to end, and nothing says that an input does: so its turns are counted, up to a number that no run reaches.
fn list(rt: &(impl Print + Eprint + Input), kind: Kind) -> io::Result<()> {
    println!(rt; "at\tnumber\treply")?;
    let mut input = rt.reader();
    let mut listing = Listing::new(kind);
    let mut part = [0; PART];
    for _ in 0..u64::MAX {
        let Ok(count) = input.read(&mut part) else {
            return eprintln!(rt; "listing: standard input cannot be read");
        };
        if count == 0 {
            return Ok(());
        }
        listing.list(rt, &part[..count])?;
    }
    Ok(())
}
