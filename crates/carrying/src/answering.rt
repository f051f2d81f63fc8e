// Replies, written from the start of the reply buffer.
ghost use Rattle.std.specs.Prelude.{◌≡◌, ◌≤◌, ◌+◌, ◌*◌, ◌/◌, ◌-◌, cond, length};
ghost use Rattle.ground.specs.Lists.{written};
ghost use Rattle.halves.specs.HalfBytes.{split};
ghost use Rattle.kinds.specs.Kinds.{size_of};
ghost use Rattle.programs.specs.Memory.{put_part};
ghost use Rattle.programs.specs.Spares.{without_spares, all_set};
ghost use Rattle.programs.specs.Held.{goes_long, bytes_out};
ghost use Rattle.programs.specs.Lending.{content};
ghost use Rattle.sysex.specs.Forms.{type_for, pp_for, data_place, longest, dump_start, dump_body, identity_reply, ended};
ghost use Rattle.sysex.specs.Formats.{There};

use kinds::Kind;
use programs::{Held, Player, Target};
use sysex::Settings;

// The identity reply is 17 bytes.
pub(crate) fn identify(cc: u8, kind: Kind, settings: Settings, reply: &mut [u8])
    requires { 17 ≤ length reply.old }
    ensures { reply.new ≡ written (identity_reply kind settings cc) reply.old }
{
    let [family0, family1, member0, member1] = kind.identity();
    reply[..17].copy_from_slice(&[
        0xF0,
        0x7E,
        cc,
        0x06,
        0x02,
        0x00,
        0x01,
        0x0C,
        family0,
        family1,
        member0,
        member1,
        settings.revision0,
        settings.revision1,
        settings.revision2,
        settings.revision3,
        0xF7,
    ]);
}

// Answers a request by the dump of what it names, in the length that its marks say. Returns its length. (`There` is asked
// three times in this crate: a type for it would be made and taken apart where the judge's `Target` does.)
pub(crate) fn answer(target: Target, player: Player, held: &Held, reply: &mut [u8]) -> u16
    requires there { There target }
    requires room { longest held.now.kind ≤ length reply.old }
    ensures value { result ≡ length (ended (dump_body held.now.kind target (bytes_out held.now.kind player target (content held.now)))) }
    ensures reply_after { reply.new ≡ written (ended (dump_body held.now.kind target (bytes_out held.now.kind player target (content held.now)))) reply.old }
{
    let kind = held.kind;
    let from = target.place(kind, player);
    let part = &held.memory[from..from + target.count(kind)];
    let start = begin(target, kind, reply);
    let end = put_data(part, goes_long(target, player, held), kind, start, reply);
    reply[end] = 0xF7;
    end as u16 + 1
}

// A dump up to its data: header, opcode, type, the program where there is one, version 0. Returns the data's place: what
// stands behind is written from there.
fn begin(target: Target, kind: Kind, reply: &mut [u8]) -> usize
    requires { 9 ≤ length reply.old }
    ensures value { result ≡ data_place (type_for target) }
    ensures reply_after { reply.new ≡ written (dump_start kind (type_for target) (pp_for target)) reply.old }
{
    reply[..5].copy_from_slice(&kind.header());
    reply[5] = sysex::DUMP;
    reply[6] = sysex::type_for(target);
    match target {
        Target::One(program) => {
            reply[7] = program;
            reply[8] = sysex::VERSION;
            9
        }
        _ => {
            reply[7] = sysex::VERSION;
            8
        }
    }
}

// Whether the dump of what is named goes out long: where its marks are set, or the kind has no spare bytes.
fn goes_long(target: Target, player: Player, held: &Held) -> bool
    requires { There target }
    ensures { result ≡ goes_long held.now.kind player target (content held.now) }
{
    let slot = target.slot(player);
    let end = slot + target.slots();
    !held.kind.has_spare() || all_set(&held.marks[slot..end])
}

fn all_set(marks: &[u8]) -> bool
    ensures { result ≡ all_set marks.now }
{
    marks.iter().all(|mark| *mark == 1)
}

// The data of a dump, from a place on: the half bytes of some programs, long or short. Returns the place behind them.
fn put_data(part: &[u8], long: bool, kind: Kind, place: usize, reply: &mut [u8]) -> usize
    requires whole { length part.now ≡ length part.now / size_of kind * size_of kind }
    requires room { place + 2 * length part.now ≤ length reply.old }
    ensures { let out = cond long part.now (without_spares (size_of kind) (length part.now / size_of kind) part.now) in (result ≡ place + 2 * length out) × (reply.new ≡ put_part place (2 * length out) (split out) reply.old) }
{
    if long {
        let end = place + 2 * part.len();
        halves::split_into(part, &mut reply[place..end]).unwrap();
        end
    } else {
        split_short(part, kind, place, reply)
    }
}

// The half bytes of programs without their spare bytes, from a place on. Returns the place behind them: it is counted, for
// of a chunk that `chunks_exact_mut` lends, a caller learns no more than its length.
fn split_short(part: &[u8], kind: Kind, place: usize, reply: &mut [u8]) -> usize
    requires { place + 2 * (length part.now / size_of kind * (size_of kind - 1)) ≤ length reply.old }
    ensures value { result ≡ place + 2 * (length part.now / size_of kind * (size_of kind - 1)) }
    ensures reply_after { reply.new ≡ put_part place (2 * (length part.now / size_of kind * (size_of kind - 1))) (split (without_spares (size_of kind) (length part.now / size_of kind) part.now)) reply.old }
{
    let size = kind.size() as usize;
    let mut to = place;
    for program in part.chunks_exact(size) {
        let next = to + 2 * (size - 1);
        halves::split_into(&program[..size - 1], &mut reply[to..next]).unwrap();
        to = next;
    }
    to
}
