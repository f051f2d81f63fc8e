// The C interface: crate costerbloom's seven functions, exported under the names that include/costerbloom.h declares. Their
// signatures and contracts stand twice, for a crate is a library, which others stand on, or a static library.
#![tactic(auto)]

ghost use Rattle.std.specs.Prelude.{◌≡◌, List, ℕ};
ghost use Rattle.ground.specs.Calls.{left};
ghost use Rattle.programs.specs.Held.{held_of};
ghost use Rattle.screen.specs.Parts.{shown};
ghost use Rattle.screen.specs.Screen.{screen_of};
ghost use Rattle.sockets.specs.Box.{took};
ghost use Rattle.costerbloom.specs.Numbers.{settings_of, take_numbers, whole_numbers, moves_numbers, scale_number, back_number, amp_number};

use framing::Receiver;
use podbox::Move;

// A byte that came on a socket.
#[unsafe(no_mangle)]
pub extern "C" fn costerbloom_take(
    receiver: &mut Receiver,
    socket: u32,
    byte: u8,
    kind: u32,
    channel: u8,
    omni: u8,
    revision0: u8,
    revision1: u8,
    revision2: u8,
    revision3: u8,
    memory: &mut [u8],
    marks: &mut [u8],
    receive: &mut [u8],
    reply: &mut [u8],
) -> u64
    ensures { took receiver.new result (held_of memory.new marks.new) receive.new reply.new ≡ take_numbers kind (settings_of channel omni revision0 revision1 revision2 revision3) socket receiver.old byte (held_of memory.old marks.old) receive.old reply.old }
{
    costerbloom::costerbloom_take(
        receiver, socket, byte, kind, channel, omni, revision0, revision1, revision2, revision3,
        memory, marks, receive, reply,
    )
}

// A whole message from the panel, of a player.
#[unsafe(no_mangle)]
pub extern "C" fn costerbloom_whole(
    message: &[u8],
    player: u32,
    kind: u32,
    channel: u8,
    omni: u8,
    revision0: u8,
    revision1: u8,
    revision2: u8,
    revision3: u8,
    memory: &mut [u8],
    marks: &mut [u8],
    reply: &mut [u8],
) -> u64
    ensures { left result (held_of memory.new marks.new) reply.new ≡ whole_numbers kind (settings_of channel omni revision0 revision1 revision2 revision3) player message.now (held_of memory.old marks.old) reply.old }
{
    costerbloom::costerbloom_whole(
        message, player, kind, channel, omni, revision0, revision1, revision2, revision3, memory,
        marks, reply,
    )
}

// Many moves of a player in one go.
#[unsafe(no_mangle)]
pub extern "C" fn costerbloom_moves(
    moves: &[Move],
    player: u32,
    kind: u32,
    channel: u8,
    omni: u8,
    revision0: u8,
    revision1: u8,
    revision2: u8,
    revision3: u8,
    memory: &mut [u8],
    numbers: &mut [u8],
) -> u64
    ensures { (marks : List ℕ) → left result (held_of memory.new marks) numbers.new ≡ moves_numbers kind (settings_of channel omni revision0 revision1 revision2 revision3) player moves.now (held_of memory.old marks) numbers.old }
{
    costerbloom::costerbloom_moves(
        moves, player, kind, channel, omni, revision0, revision1, revision2, revision3, memory,
        numbers,
    )
}

// The controller's number for a value.
#[unsafe(no_mangle)]
pub extern "C" fn costerbloom_scale(controller: u32, value: u32, kind: u32) -> u32
    ensures { result ≡ scale_number kind controller value }
{
    costerbloom::costerbloom_scale(controller, value, kind)
}

// The value that a player's edit buffer shows for a controller.
#[unsafe(no_mangle)]
pub extern "C" fn costerbloom_back(controller: u32, player: u32, kind: u32, memory: &[u8]) -> u32
    ensures { result ≡ back_number kind player controller memory.now }
{
    costerbloom::costerbloom_back(controller, player, kind, memory)
}

// What the screen shows, written where C lends a place for it. The place holds a valid part before the call, as
// `{ programs, 0 }`.
#[unsafe(no_mangle)]
pub extern "C" fn costerbloom_screen<'a>(
    part: &mut &'a [u8],
    program: u32,
    own: u32,
    player: u32,
    kind: u32,
    programs: &'a [u8],
    buffer: &'a [u8],
) -> u64
    ensures { shown result part.new ≡ screen_of kind program own player programs.entry buffer.entry }
{
    costerbloom::costerbloom_screen(part, program, own, player, kind, programs, buffer)
}

// Whether an amp model is known: 1 where it is, 0 where not.
#[unsafe(no_mangle)]
pub extern "C" fn costerbloom_amp(model: u32, kind: u32) -> u32
    ensures { result ≡ amp_number kind model }
{
    costerbloom::costerbloom_amp(model, kind)
}
