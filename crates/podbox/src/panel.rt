// A message that the panel hands over whole.
ghost use Rattle.std.specs.Prelude.{◌≡◌};
ghost use Rattle.ground.specs.Calls.{left};
ghost use Rattle.programs.specs.Held.{held_of};
ghost use Rattle.podbox.specs.Whole.{is_framed};
ghost use Rattle.podbox.specs.Box.{whole_of};
ghost use Rattle.podbox.specs.Private.{bytes_of, body_in};

use crate::settings;
use kinds::Kind;
use programs::Player;
use sysex::{Answered, Check, Settings};

// 32 for the kind, 30, 31 and 32, 10 and 11, then what its body asks for.
// Numbers and slices side by side, as C lends them: `whole_of` is over any of them.
#[tactic(auto, unfolding(sockets::specs::Promise::direct_of, kinds::specs::Kinds::kind_from, programs::specs::Memory::player_from, sysex::specs::Judging::judge_of, carrying::specs::Carrying::order_does, carrying::specs::Carrying::carry_of, crate::specs::Whole::message_order, crate::specs::Private::body_in), using(ground::proofs::Tests::tests, crate::proofs::Taking::sender))]
pub fn whole_message(
    message: &[u8],
    player: u32,
    kind: u32,
    settings: Settings,
    memory: &mut [u8],
    marks: &mut [u8],
    reply: &mut [u8],
) -> Answered
    ensures { left result (held_of memory.new marks.new) reply.new ≡ whole_of kind settings player message.now (held_of memory.old marks.old) reply.old }
{
    let kind = Kind::try_from(kind)?;
    carrying::are_lent(kind, memory, marks, reply)?;
    let player = Player::try_from(player)?;
    settings::are_valid(settings)?;
    settings::are_marks(marks)?;
    let body = body(message, kind)?;
    carrying::carry_out(body, player, kind, settings, memory, marks, reply)
}

// The message without its F7, where it is no longer than the longest and is framed.
pub(crate) fn body(message: &[u8], kind: Kind) -> Result<&[u8], Check>
    ensures { bytes_of result ≡ body_in kind message.now }
{
    let longest = sysex::longest(kind);
    if longest < message.len() {
        return Err(Check::TooLong(longest as u16));
    }
    if is_framed(message) {
        Ok(&message[..message.len() - 1])
    } else {
        Err(Check::Ours(kind.device()))
    }
}

// Whether it begins with F0, ends with F7 as another byte, and has none above 0x7F between.
fn is_framed(message: &[u8]) -> bool
    ensures { result ≡ is_framed message.now }
{
    match message {
        [0xF0, between @ .., 0xF7] => halves::all_at_most(between, 0x7F),
        _ => false,
    }
}
