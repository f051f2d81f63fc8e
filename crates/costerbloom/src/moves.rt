// Many moves of a player in one go.
ghost use Rattle.std.specs.Prelude.{◌≡◌, List, ℕ};
ghost use Rattle.ground.specs.Calls.{left};
ghost use Rattle.programs.specs.Held.{held_of};
ghost use Rattle.podbox.specs.Box.{moves_of};

use podbox::Move;
use sysex::{Answered, Settings};

// All of them, or none where the list is refused. The number of each is noted at its place.
#[tactic(auto, using(crate::proofs::Making::fit))]
pub(crate) fn make_moves(
    moves: &[Move],
    player: u32,
    kind: u32,
    settings: Settings,
    memory: &mut [u8],
    numbers: &mut [u8],
) -> Answered
    ensures { (marks : List ℕ) → left result (held_of memory.new marks) numbers.new ≡ moves_of kind settings player moves.now (held_of memory.old marks) numbers.old }
{
    let taken = podbox::list_answer(
        moves.len(),
        player,
        kind,
        settings,
        memory.len(),
        numbers.len(),
    )?;
    // Both are known: `list_answer` refuses any other number.
    let player = programs::player_of(player);
    let kind = kinds::kind_of(kind);
    for (place, one) in moves.iter().enumerate() {
        let done = podbox::make_move(*one, player, kind, memory);
        numbers[place] = sysex::answer_number(done);
    }
    Ok(taken)
}
