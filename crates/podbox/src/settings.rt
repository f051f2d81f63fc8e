// The lengths that serve a box of any kind, the settings of a fresh one, and whether settings are in range.
ghost use Rattle.std.specs.Prelude.{◌≡◌, ◌≤◌, [], ◌∷◌, length};
ghost use Rattle.programs.specs.Memory.{mark_count};
ghost use Rattle.programs.specs.Held.{held_of};
ghost use Rattle.podbox.specs.Box.{limit, settings_test, marked_test};
ghost use Rattle.podbox.specs.Private.{passes};

use ground::Refusal;
use kinds::{Kind, LARGEST};
use programs::{MARKS, PROGRAMS};
use sysex::Settings;

// Memory of the largest programs, and the longest message with them: no kind asks for more.
pub const MEMORY: usize = (PROGRAMS + 2) * LARGEST;

pub const LONGEST: usize = 2 * PROGRAMS * LARGEST + 9;

// What a call of any kind may be lent: memory, and a receive or a reply buffer.
pub type Memory = [u8; MEMORY];

pub type Buffer = [u8; LONGEST];

// A constant, since `Settings` is a type of sysex, where `Default` would have to stand.
pub const FRESH_SETTINGS: Settings = Settings {
    channel: 0,
    omni: 0,
    revision0: 0x30,
    revision1: 0x31,
    revision2: 0x30,
    revision3: 0x30,
};

// The most bytes of a SysEx that are stored: all but its F7.
pub(crate) fn limit(kind: Kind) -> u16
    ensures { result ≡ limit kind }
{
    (sysex::longest(kind) - 1) as u16
}

// 32 for a setting out of its range.
pub(crate) fn are_valid(settings: Settings) -> Result<(), Refusal>
    ensures { result ≡ passes (settings_test settings ∷ []) }
{
    if settings.channel <= 15
        && settings.omni <= 1
        && settings.revision0 <= 0x7F
        && settings.revision1 <= 0x7F
        && settings.revision2 <= 0x7F
        && settings.revision3 <= 0x7F
    {
        Ok(())
    } else {
        Err(Refusal::Unsound)
    }
}

// 32 for one of the box's own marks that is neither 1 nor 0.
pub(crate) fn are_marks(marks: &[u8]) -> Result<(), Refusal>
    requires { mark_count ≤ length marks.now }
    ensures { result ≡ passes (marked_test (held_of [] marks.now) ∷ []) }
{
    if halves::all_flags(&marks[..MARKS]) {
        Ok(())
    } else {
        Err(Refusal::Unsound)
    }
}
