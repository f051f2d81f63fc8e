// Dumps, stored.
ghost use Rattle.std.specs.Prelude.{◌≡◌, true, ◌≤◌, ◌+◌, ◌-◌, ◌*◌, ◌/◌, length, drop};
ghost use Rattle.halves.specs.HalfBytes.{join, all_halves};
ghost use Rattle.kinds.specs.Kinds.{size_of};
ghost use Rattle.programs.specs.Memory.{put_part};
ghost use Rattle.programs.specs.Spares.{with_spares};
ghost use Rattle.programs.specs.Held.{held_of, marked, received, put_in, store_in};
ghost use Rattle.programs.specs.Lending.{content, SameLent};
ghost use Rattle.sysex.specs.Forms.{type_for, data_place, is_long};
ghost use Rattle.sysex.specs.Formats.{There, IsDump};

use kinds::Kind;
use programs::{Held, Player, Target};

// What is named becomes the bytes of a dump's data, and its marks say whether the spare bytes were among them.
pub(crate) fn store(target: Target, body: &[u8], player: Player, held: &mut Held)
    requires { IsDump held.old.kind target (is_long held.old.kind target body.now) (join (drop (data_place (type_for target)) body.now)) body.now }
    ensures same { SameLent held.old held.new }
    ensures held_after { content held.new ≡ store_in held.old.kind player target (is_long held.old.kind target body.now) (join (drop (data_place (type_for target)) body.now)) (content held.old) }
{
    let long = receive(target, body, player, held);
    mark(target, player, long, held);
}

// The bytes of a dump's data, in the place of what it names. Returns whether the dump is long.
fn receive(target: Target, body: &[u8], player: Player, held: &mut Held) -> bool
    requires { IsDump held.old.kind target (is_long held.old.kind target body.now) (join (drop (data_place (type_for target)) body.now)) body.now }
    ensures same { SameLent held.old held.new }
    ensures value { result ≡ is_long held.old.kind target body.now }
    ensures held_after { content held.new ≡ put_in held.old.kind player target (received held.old.kind target result (join (drop (data_place (type_for target)) body.now))) (content held.old) }
{
    let kind = held.kind;
    let place = target.place(kind, player);
    let count = target.count(kind);
    let halves = &body[sysex::version_place(sysex::type_for(target)) + 1..];
    if halves.len() == 2 * count {
        halves::join_any(halves, &mut held.memory[place..place + count]).unwrap();
        true
    } else {
        join_short(halves, kind, &mut held.memory[place..place + count]);
        false
    }
}

// The bytes of half bytes, with a 0 behind those of each program. Their places are counted, as in `split_short`.
fn join_short(halves: &[u8], kind: Kind, part: &mut [u8])
    requires bytes { length part.old ≡ length part.old / size_of kind * size_of kind }
    requires whole { length halves.now ≡ 2 * (length part.old / size_of kind * (size_of kind - 1)) }
    requires low { all_halves halves.now ≡ true }
    ensures { part.new ≡ with_spares (size_of kind) (length part.old / size_of kind) (join halves.now) }
{
    let size = kind.size() as usize;
    let mut to = 0;
    for program in halves.chunks_exact(2 * (size - 1)) {
        let spare = to + (size - 1);
        halves::join_any(program, &mut part[to..spare]).unwrap();
        part[spare] = 0;
        to = spare + 1;
    }
}

// Marks what is named, where the kind has spare bytes.
fn mark(target: Target, player: Player, long: bool, held: &mut Held)
    requires { There target }
    ensures same { SameLent held.old held.new }
    ensures held_after { content held.new ≡ held_of held.old.memory.now (marked held.old.kind player target long held.old.marks.now) }
{
    if held.kind.has_spare() {
        let slot = target.slot(player);
        let end = slot + target.slots();
        held.marks[slot..end].fill(u8::from(long));
    }
}
