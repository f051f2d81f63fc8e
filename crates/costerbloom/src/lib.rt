// The box on numbers and byte slices, as C calls it: costerbloom_c exports the seven public functions.
#![tactic(auto, unfolding(crate::specs::Numbers::packed, crate::specs::Numbers::reading_number, crate::specs::Numbers::take_numbers, crate::specs::Numbers::whole_numbers, crate::specs::Numbers::moves_numbers, crate::specs::Numbers::scale_call, crate::specs::Numbers::scale_number, crate::specs::Numbers::memory_back, crate::specs::Numbers::back_call, crate::specs::Numbers::back_number, crate::specs::Numbers::amp_call, crate::specs::Numbers::amp_number, kinds::specs::Kinds::kind_from, programs::specs::Memory::player_from))]

mod moves;
mod numbers;

ghost use Rattle.std.specs.Prelude.{◌≡◌, List, ℕ};
ghost use Rattle.ground.specs.Calls.{left};
ghost use Rattle.programs.specs.Held.{held_of};
ghost use Rattle.screen.specs.Parts.{shown};
ghost use Rattle.screen.specs.Screen.{screen_of};
ghost use Rattle.sockets.specs.Box.{took};
ghost use Rattle.costerbloom.specs.Numbers.{settings_of, take_numbers, whole_numbers, moves_numbers, scale_call, scale_number, back_call, back_number, amp_call, amp_number};

use framing::Receiver;
use ground::Refusal;
use kinds::Kind;
use podbox::Move;
use programs::Player;

// A byte that came on a socket.
pub fn costerbloom_take(
    receiver: &mut Receiver,
    socket: u32,
    byte: u8,
    kind: u32,
    channel: u8,
    omni: u8,
    revision0: u8,
    revision1: u8,
    revision2: u8,
    revision3: u8,
    memory: &mut [u8],
    marks: &mut [u8],
    receive: &mut [u8],
    reply: &mut [u8],
) -> u64
    ensures { took receiver.new result (held_of memory.new marks.new) receive.new reply.new ≡ take_numbers kind (settings_of channel omni revision0 revision1 revision2 revision3) socket receiver.old byte (held_of memory.old marks.old) receive.old reply.old }
{
    let settings = numbers::settings(channel, omni, revision0, revision1, revision2, revision3);
    let answer = podbox::take_byte(
        receiver, socket, byte, kind, settings, memory, marks, receive, reply,
    );
    numbers::packed(answer)
}

// A whole message from the panel, of a player.
pub fn costerbloom_whole(
    message: &[u8],
    player: u32,
    kind: u32,
    channel: u8,
    omni: u8,
    revision0: u8,
    revision1: u8,
    revision2: u8,
    revision3: u8,
    memory: &mut [u8],
    marks: &mut [u8],
    reply: &mut [u8],
) -> u64
    ensures { left result (held_of memory.new marks.new) reply.new ≡ whole_numbers kind (settings_of channel omni revision0 revision1 revision2 revision3) player message.now (held_of memory.old marks.old) reply.old }
{
    let settings = numbers::settings(channel, omni, revision0, revision1, revision2, revision3);
    let answer = podbox::whole_message(message, player, kind, settings, memory, marks, reply);
    numbers::packed(answer)
}

// Many moves of a player in one go. The moves and their numbers are two buffers, for this is the C interface.
pub fn costerbloom_moves(
    moves: &[Move],
    player: u32,
    kind: u32,
    channel: u8,
    omni: u8,
    revision0: u8,
    revision1: u8,
    revision2: u8,
    revision3: u8,
    memory: &mut [u8],
    numbers: &mut [u8],
) -> u64
    ensures { (marks : List ℕ) → left result (held_of memory.new marks) numbers.new ≡ moves_numbers kind (settings_of channel omni revision0 revision1 revision2 revision3) player moves.now (held_of memory.old marks) numbers.old }
{
    let settings = numbers::settings(channel, omni, revision0, revision1, revision2, revision3);
    let answer = moves::make_moves(moves, player, kind, settings, memory, numbers);
    numbers::packed(answer)
}

// The controller's number for a value.
pub fn costerbloom_scale(controller: u32, value: u32, kind: u32) -> u32
    ensures { result ≡ scale_number kind controller value }
{
    numbers::reading_number(scale(controller, value, kind))
}

fn scale(controller: u32, value: u32, kind: u32) -> Result<u16, Refusal>
    ensures { result ≡ scale_call kind controller value }
{
    let kind = Kind::try_from(kind)?;
    controls::scale(controller, value, kind)
}

// The value that a player's edit buffer shows for a controller.
pub fn costerbloom_back(controller: u32, player: u32, kind: u32, memory: &[u8]) -> u32
    ensures { result ≡ back_number kind player controller memory.now }
{
    numbers::reading_number(back(controller, player, kind, memory))
}

fn back(controller: u32, player: u32, kind: u32, memory: &[u8]) -> Result<u16, Refusal>
    ensures { result ≡ back_call kind player controller memory.now }
{
    let kind = Kind::try_from(kind)?;
    if memory.len() < programs::memory_size(kind) {
        return Err(Refusal::TooShort);
    }
    let player = Player::try_from(player)?;
    let place = player.edit_place(kind);
    let end = place + kind.size() as usize;
    controls::show_back(controller, kind, &memory[place..end])
}

// Whether an amp model is known: 1 where it is, 0 where not.
pub fn costerbloom_amp(model: u32, kind: u32) -> u32
    ensures { result ≡ amp_number kind model }
{
    numbers::reading_number(amp(model, kind))
}

fn amp(model: u32, kind: u32) -> Result<u16, Refusal>
    ensures { result ≡ amp_call kind model }
{
    let kind = Kind::try_from(kind)?;
    Ok(u16::from(kind.is_known_model(model)))
}

// What the screen shows, written where C lends a place for it: no exported function may return a reference. The place holds
// a valid part before the call, as `{ programs, 0 }`.
pub fn costerbloom_screen<'a>(
    part: &mut &'a [u8],
    program: u32,
    own: u32,
    player: u32,
    kind: u32,
    programs: &'a [u8],
    buffer: &'a [u8],
) -> u64
    ensures { shown result part.new ≡ screen_of kind program own player programs.entry buffer.entry }
{
    screen::show(part, program, own, player, kind, programs, buffer) as u64
}
