// What a body asks for, done: what an order does to what the box holds and to the reply buffer.
#![tactic(auto, unfolding(crate::specs::Carrying::order_does, crate::specs::Carrying::carry_of), using(ground::proofs::Tests::tests, crate::proofs::Parts::inside))]

mod answering;
mod storing;

ghost use Rattle.std.specs.Prelude.{◌≡◌, ◌≤◌, IfOk, Ok, Err, length};
ghost use Rattle.ground.specs.Calls.{left};
ghost use Rattle.ground.specs.Tests.{tested};
ghost use Rattle.programs.specs.Memory.{memory_size, mark_count};
ghost use Rattle.programs.specs.Held.{held_of};
ghost use Rattle.programs.specs.Lending.{content, SameLent};
ghost use Rattle.sysex.specs.Forms.{longest};
ghost use Rattle.carrying.specs.Carrying.{carry_tests, carry_of};

use ground::Refusal;
use kinds::Kind;
use programs::{Held, MARKS, Player};
use sysex::{Answer, Answered, Order, Settings};

// Whether memory, marks and a reply buffer are as long as the kind asks.
pub fn are_lent(kind: Kind, memory: &[u8], marks: &[u8], reply: &[u8]) -> Result<(), Refusal>
    ensures tests { result ≡ tested (carry_tests kind (held_of memory.now marks.now) reply.now) Err (Ok tt) }
    ensures lent { IfOk result (λ _. (memory_size kind ≤ length memory.now) × ((mark_count ≤ length marks.now) × (longest kind ≤ length reply.now))) }
{
    if memory.len() < programs::memory_size(kind)
        || marks.len() < MARKS
        || reply.len() < sysex::longest(kind)
    {
        Err(Refusal::TooShort)
    } else {
        Ok(())
    }
}

// Does what a player's body asks for, where these buffers are lent.
pub fn carry_out(
    body: &[u8],
    player: Player,
    kind: Kind,
    settings: Settings,
    memory: &mut [u8],
    marks: &mut [u8],
    reply: &mut [u8],
) -> Answered
    ensures { left result (held_of memory.new marks.new) reply.new ≡ carry_of kind settings player body.now (held_of memory.old marks.old) reply.old }
{
    are_lent(kind, memory, marks, reply)?;
    carry(
        body,
        player,
        settings,
        &mut Held {
            kind,
            memory,
            marks,
        },
        reply,
    )
}

// The same where what the box holds is known to be whole.
fn carry(
    body: &[u8],
    player: Player,
    settings: Settings,
    held: &mut Held,
    reply: &mut [u8],
) -> Answered
    ensures same { SameLent held.old held.new }
    ensures all_after { left result (content held.new) reply.new ≡ carry_of held.old.kind settings player body.now (content held.old) reply.old }
{
    if reply.len() < sysex::longest(held.kind) {
        return Err(Refusal::TooShort);
    }
    match sysex::judge(body, held.kind, settings)? {
        Order::Identify(cc) => {
            answering::identify(cc, held.kind, settings, reply);
            Ok(Answer::Sent(17))
        }
        Order::Send(target) => Ok(Answer::Sent(answering::answer(target, player, held, reply))),
        Order::Store(target) => {
            storing::store(target, body, player, held);
            Ok(Answer::Stored)
        }
    }
}
