// A list of moves: whether it is taken, and one move of it.
ghost use Rattle.std.specs.Prelude.{◌≡◌, List, [], ℕ};
ghost use Rattle.ground.specs.Calls.{outcome};
ghost use Rattle.programs.specs.Held.{held_of};
ghost use Rattle.podbox.specs.Box.{list_answer, move_does};

use crate::{Move, channel, settings};
use ground::Refusal;
use kinds::Kind;
use programs::Player;
use sysex::{Answer, Answered, Settings};

// The most moves that a list has.
const MOST_MOVES: usize = 256;

// What a list of so many moves is answered, by the lengths of memory and of the buffer for its numbers.
// Numbers and lengths, and no slices: `list_answer` of specs/Box is over any of them, and nothing is lent.
pub fn list_answer(
    count: usize,
    player: u32,
    kind: u32,
    settings: Settings,
    memory: usize,
    numbers: usize,
) -> Answered
    ensures { result ≡ list_answer kind settings player count memory numbers }
{
    if MOST_MOVES < count {
        return Err(Refusal::ListTooLong);
    }
    if numbers < count {
        return Err(Refusal::NumbersTooShort);
    }
    let kind = Kind::try_from(kind)?;
    if memory < programs::memory_size(kind) {
        return Err(Refusal::TooShort);
    }
    Player::try_from(player)?;
    settings::are_valid(settings)?;
    Ok(Answer::Taken)
}

// A move into a player's edit buffer.
pub fn make_move(one: Move, player: Player, kind: Kind, memory: &mut [u8]) -> Answered
    ensures { (marks : List ℕ) → outcome result (held_of memory.new marks) [] ≡ move_does kind player one (held_of memory.old marks) }
{
    if memory.len() < programs::memory_size(kind) {
        return Err(Refusal::TooShort);
    }
    channel::controller(one.controller, one.value, player, kind, memory)
}
