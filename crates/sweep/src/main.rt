// Every controller of every kind over every value and setting, and every byte and half byte: a line of counts and
// digests for each.
#![tactic(auto)]

mod buffer;
mod controllers;
mod half_bytes;
mod tally;

use controllers::Swept;
use kinds::Kind;
use std::io;

// The 128 controllers, and one past them, of a kind.
fn print_controllers(rt: &impl Print, kind: Kind) -> io::Result<()> {
    for controller in 0..129 {
        let swept = Swept { controller, kind };
        print!(rt; "{}\t{controller}", kind as u32)?;
        println!(rt; "{}{}{}", swept.scaled(), swept.applied(), swept.shown())?;
    }
    Ok(())
}

fn main(rt: HostRuntime) -> io::Result<()> {
    println!(rt; "kind\tcontroller\tscaled\tdigest\tapplied\tdigest\tshown\tdigest")?;
    print_controllers(&rt, Kind::Pod)?;
    print_controllers(&rt, Kind::BassPod)?;
    print_controllers(&rt, Kind::PodPro)?;
    println!(rt; "halves{}", half_bytes::joined_and_split())
}
