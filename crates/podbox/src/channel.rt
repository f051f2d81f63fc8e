// A finished channel message: 20, 21, then a controller, or a program, into the edit buffer of its sender.
ghost use Rattle.std.specs.Prelude.{◌≡◌, List, [], ℕ, ◌≤◌, Ok, length};
ghost use Rattle.ground.specs.Calls.{outcome};
ghost use Rattle.programs.specs.Memory.{program_count, memory_size};
ghost use Rattle.programs.specs.Held.{held_of};
ghost use Rattle.programs.specs.Lending.{content, SameLent};
ghost use Rattle.podbox.specs.Messages.{is_controller, is_program_change, controller_does, program_change_does, channel_does};

use ground::Refusal;
use kinds::Kind;
use programs::{Held, PROGRAMS, Player};
use sysex::{Answer, Answered, Settings};

#[tactic(auto, unfolding(sysex::specs::Forms::hears, crate::specs::Messages::is_heard, crate::specs::Messages::channel_does), using(ground::proofs::Tests::tests, crate::proofs::Taking::change_numbered))]
pub(crate) fn channel(
    status: u8,
    first: u8,
    second: u8,
    player: Player,
    settings: Settings,
    held: &mut Held,
) -> Answered
    ensures same { SameLent held.old held.new }
    ensures all_after { outcome result (content held.new) [] ≡ channel_does held.old.kind settings player status first second (content held.old) }
{
    if !settings.hears(status % 16) {
        return Err(Refusal::OtherChannel);
    }
    if is_controller(status) {
        controller(first, second, player, held.kind, held.memory)
    } else if is_program_change(status, first, held.kind) {
        change_program(first, player, held);
        Ok(Answer::Stored)
    } else {
        Err(Refusal::OtherStatus)
    }
}

fn is_controller(status: u8) -> bool
    ensures { result ≡ is_controller status }
{
    status / 16 == 0xB
}

// A program change that the kind takes: of 1 to 36.
fn is_program_change(status: u8, number: u8, kind: Kind) -> bool
    ensures { result ≡ is_program_change kind status number }
{
    kind.takes_program_change() && status / 16 == 0xC && 1 <= number && number <= PROGRAMS as u8
}

// A list of moves is lent no marks, so this asks for memory alone, and for its length.
#[inline(always)]
pub(crate) fn controller(
    number: u8,
    value: u8,
    player: Player,
    kind: Kind,
    memory: &mut [u8],
) -> Answered
    requires { memory_size kind ≤ length memory.old }
    ensures { (marks : List ℕ) → outcome result (held_of memory.new marks) [] ≡ controller_does kind player number value (held_of memory.old marks) }
{
    let place = player.edit_place(kind);
    let end = place + kind.size() as usize;
    controls::apply(number as u32, value as u32, kind, &mut memory[place..end])?;
    Ok(Answer::Applied)
}

// Programs are counted from 1 here.
fn change_program(number: u8, player: Player, held: &mut Held)
    requires { (1 ≤ number) × (number ≤ program_count) }
    ensures same { SameLent held.old held.new }
    ensures all_after { outcome (Ok Answer.Stored) (content held.new) [] ≡ program_change_does held.old.kind player number (content held.old) }
{
    let size = held.kind.size() as usize;
    let from = (number as usize - 1) * size;
    let edit = player.edit_place(held.kind);
    held.memory.copy_within(from..from + size, edit);
}
