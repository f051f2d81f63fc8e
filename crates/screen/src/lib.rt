// What the screen is handed: the bytes of a shared program, or of the player's own buffer.
#![tactic(auto, unfolding(crate::specs::Screen::screen_of, kinds::specs::Kinds::kind_from, programs::specs::Memory::player_from))]

ghost use Rattle.std.specs.Prelude.{◌≡◌};
ghost use Rattle.screen.specs.Parts.{shown, returned};
ghost use Rattle.screen.specs.Screen.{screen_of, part_for};

use ground::Refusal;
use kinds::Kind;
use programs::{PROGRAMS, Player};

// The six are what C hands over. The bytes in the memory that they already occupy. `own` is 0 for the shared program, and any other number for the
// player's own buffer.
pub fn screen<'a>(
    program: u32,
    own: u32,
    player: u32,
    kind: u32,
    programs: &'a [u8],
    buffer: &'a [u8],
) -> Result<&'a [u8], Refusal>
    ensures { returned result ≡ part_for kind program own player programs.entry buffer.entry }
{
    let kind = Kind::try_from(kind)?;
    let size = kind.size() as usize;
    if programs.len() < PROGRAMS * size || buffer.len() < size {
        return Err(Refusal::TooShort);
    }
    Player::try_from(player)?;
    if own != 0 {
        return Ok(&buffer[..size]);
    }
    if program as usize >= PROGRAMS {
        return Err(Refusal::NoProgram);
    }
    let start = program as usize * size;
    Ok(&programs[start..start + size])
}

// The same for a caller that cannot take a `Result`, as C: it lends the place where the part is written, which holds a
// valid part before, an empty one for instance, and the number is the result. A refusal hands over an empty part of the
// programs.
pub fn show<'a>(
    part: &mut &'a [u8],
    program: u32,
    own: u32,
    player: u32,
    kind: u32,
    programs: &'a [u8],
    buffer: &'a [u8],
) -> u8
    ensures { shown result part.new ≡ screen_of kind program own player programs.entry buffer.entry }
{
    match screen(program, own, player, kind, programs, buffer) {
        Ok(bytes) => {
            *part = bytes;
            0
        }
        Err(refusal) => {
            *part = &programs[..0];
            u8::from(refusal)
        }
    }
}
