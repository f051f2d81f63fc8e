// The C interface: settings from the numbers that C hands over, and answers as single numbers. These are functions and no
// `From`, for the types on either side are not this crate's.
ghost use Rattle.std.specs.Prelude.{◌≡◌};
ghost use Rattle.costerbloom.specs.Numbers.{settings_of, packed, reading_number};

use ground::Refusal;
use sysex::{Answered, Settings};

// C hands them over one by one.
pub(crate) fn settings(
    channel: u8,
    omni: u8,
    revision0: u8,
    revision1: u8,
    revision2: u8,
    revision3: u8,
) -> Settings
    ensures { result ≡ settings_of channel omni revision0 revision1 revision2 revision3 }
{
    Settings {
        channel,
        omni,
        revision0,
        revision1,
        revision2,
        revision3,
    }
}

// The number in bits 0 to 7, the reply length in bits 8 to 23.
pub(crate) fn packed(answer: Answered) -> u64
    ensures { result ≡ packed answer }
{
    let number = sysex::answer_number(answer) as u64;
    let length = sysex::answer_length(answer) as u64;
    number + 256 * length
}

// A value as it is, a refusal above every value.
pub(crate) fn reading_number(reading: Result<u16, Refusal>) -> u32
    ensures { result ≡ reading_number reading }
{
    match reading {
        Ok(value) => value as u32,
        Err(refusal) => 65536 + u8::from(refusal) as u32,
    }
}
