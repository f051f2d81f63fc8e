// One byte on one socket.
ghost use Rattle.std.specs.Prelude.{◌≡◌, ◌≤◌, length};
ghost use Rattle.programs.specs.Held.{held_of};
ghost use Rattle.programs.specs.Lending.{content, SameLent};
ghost use Rattle.framing.specs.declared.Receiver.{Receiver};
ghost use Rattle.framing.specs.Bytes.{step_to};
ghost use Rattle.sockets.specs.Box.{took, lent};
ghost use Rattle.sockets.specs.Promise.{step_does};
ghost use Rattle.sysex.specs.Forms.{longest};
ghost use Rattle.podbox.specs.Box.{ready_tests, take_of};
ghost use Rattle.podbox.specs.Private.{Within, socket_for, kind_rules, ready_does, passes, length_tests, are_largest};

use crate::{channel, settings};
use framing::{Event, Receiver};
use ground::Refusal;
use kinds::Kind;
use programs::{Held, MARKS, Player};
use sysex::{Answer, Answered, Settings};

// 32 for the kind, 30, 31 and 32, then the byte is taken: a call that is turned away leaves the receiver as it was.
// Numbers and slices side by side, as C lends them: `take_of` is over any of them.
#[tactic(auto, unfolding(sockets::specs::Promise::byte_of, kinds::specs::Kinds::kind_from, programs::specs::Memory::player_from), using(ground::proofs::Tests::tests))]
pub fn take_byte(
    receiver: &mut Receiver,
    socket: u32,
    byte: u8,
    kind: u32,
    settings: Settings,
    memory: &mut [u8],
    marks: &mut [u8],
    receive: &mut [u8],
    reply: &mut [u8],
) -> Answered
    ensures { took receiver.new result (held_of memory.new marks.new) receive.new reply.new ≡ take_of kind settings socket receiver.old byte (held_of memory.old marks.old) receive.old reply.old }
{
    let kind = Kind::try_from(kind)?;
    are_lent(kind, memory.len(), marks.len(), receive.len(), reply.len())?;
    let player = Player::try_from(socket)?;
    let held = &mut Held {
        kind,
        memory,
        marks,
    };
    take_ready(receiver, player, byte, settings, held, receive, reply)
}

// 30 where a buffer is shorter than the kind asks for. A box that may be set as any kind lends the largest, and these are
// asked for first: their lengths are constants.
fn are_lent(
    kind: Kind,
    memory: usize,
    marks: usize,
    receive: usize,
    reply: usize,
) -> Result<(), Refusal>
    ensures { result ≡ passes (length_tests kind memory marks receive reply) }
{
    if marks < MARKS {
        return Err(Refusal::TooShort);
    }
    if are_largest(memory, receive, reply) {
        return Ok(());
    }
    if memory < programs::memory_size(kind) {
        return Err(Refusal::TooShort);
    }
    let longest = sysex::longest(kind);
    if receive < longest || reply < longest {
        return Err(Refusal::TooShort);
    }
    Ok(())
}

fn are_largest(memory: usize, receive: usize, reply: usize) -> bool
    ensures { result ≡ are_largest memory receive reply }
{
    settings::MEMORY <= memory && settings::LONGEST <= receive && settings::LONGEST <= reply
}

// 32, then the byte is taken.
#[tactic(auto, unfolding(crate::specs::Private::ready_does), using(ground::proofs::Tests::tests, crate::proofs::Taking::step_within))]
fn take_ready(
    receiver: &mut Receiver,
    player: Player,
    byte: u8,
    settings: Settings,
    held: &mut Held,
    receive: &mut [u8],
    reply: &mut [u8],
) -> Answered
    requires { (longest held.old.kind ≤ length receive.old) × (longest held.old.kind ≤ length reply.old) }
    ensures same { SameLent held.old held.new }
    ensures all_after { took receiver.new result (content held.new) receive.new reply.new ≡ ready_does held.old.kind settings player byte (lent receiver.old (content held.old) receive.old reply.old) }
{
    is_ready(*receiver, settings, held)?;
    let stepped = framing::step(*receiver, byte, settings::limit(held.kind));
    *receiver = stepped.receiver;
    act(stepped.event, player, byte, settings, held, receive, reply)
}

// The receiver is asked last, just before its step: so the compiler asks once whether a SysEx is open.
#[tactic(auto, using(ground::proofs::Tests::tests))]
fn is_ready(receiver: Receiver, settings: Settings, held: &Held) -> Result<(), Refusal>
    ensures { result ≡ passes (ready_tests held.now.kind settings receiver (content held.now)) }
{
    settings::are_valid(settings)?;
    settings::are_marks(held.marks)?;
    if framing::sound(receiver, settings::limit(held.kind)) {
        Ok(())
    } else {
        Err(Refusal::Unsound)
    }
}

// What the byte did, carried on to the buffers.
#[tactic(auto, unfolding(sockets::specs::Promise::step_does, crate::specs::Messages::message_does, carrying::specs::Carrying::carry_of), using(ground::proofs::Tests::tests, crate::proofs::Taking::own_socket))]
fn act(
    event: Event,
    player: Player,
    byte: u8,
    settings: Settings,
    held: &mut Held,
    receive: &mut [u8],
    reply: &mut [u8],
) -> Answered
    requires room { (longest held.old.kind ≤ length receive.old) × (longest held.old.kind ≤ length reply.old) }
    requires within { Within held.old.kind event }
    ensures same { SameLent held.old held.new }
    ensures all_after { (next : Receiver) → took next result (content held.new) receive.new reply.new ≡ step_does (kind_rules held.old.kind settings) (socket_for player) byte (lent next (content held.old) receive.old reply.old) (step_to next event) }
{
    match event {
        Event::Nothing => Ok(Answer::Taken),
        Event::Collect(place) => {
            receive[place as usize] = byte;
            Ok(Answer::Taken)
        }
        Event::Cut => Ok(Answer::Cut),
        Event::CutAndOpen => {
            receive[0] = byte;
            Ok(Answer::Cut)
        }
        Event::TooLong => Err(Refusal::TooLong),
        Event::SysEx(count) => {
            let body = &receive[..count as usize];
            carrying::carry_out(
                body,
                player,
                held.kind,
                settings,
                held.memory,
                held.marks,
                reply,
            )
        }
        Event::Channel(status, first, second) => {
            channel::channel(status, first, second, player, settings, held)
        }
    }
}
