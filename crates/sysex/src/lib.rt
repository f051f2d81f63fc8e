// SysEx: what a message's body asks for, and the numbers of orders and answers. A body is F0 and the bytes after it,
// without F7, as it stands in a receive buffer; nothing is assumed of its bytes.
#![tactic(auto, unfolding(crate::specs::Forms::body_length, crate::specs::Forms::is_identity, crate::specs::Forms::hears, crate::specs::Forms::is_our_channel, crate::specs::Judging::has_form, crate::specs::Judging::has_program, crate::specs::Judging::further_tests, crate::specs::Judging::order_of, crate::specs::Judging::body_order, crate::specs::Judging::judge_of), using(crate::proofs::Lengths::bounds, ground::proofs::Tests::tests))]

ghost use Rattle.std.specs.Prelude.{◌≡◌};
ghost use Rattle.sysex.specs.Forms.{hears};

mod judging;
mod numbers;

use ground::Refusal;
pub use judging::{DUMP, VERSION, judge, longest, type_for, version_place};
pub use numbers::{answer_length, answer_number, check_number, order_number};
use programs::Target;

// As they come from C: numbers, of which any may be any byte.
#[derive(Clone, Copy, Debug, PartialEq, Eq)]
pub struct Settings {
    pub channel: u8,
    pub omni: u8,
    pub revision0: u8,
    pub revision1: u8,
    pub revision2: u8,
    pub revision3: u8,
}

impl Settings {
    // Whether a message on this channel is ours: on the box's own, or on any where omni is on.
    pub fn hears(self, channel: u8) -> bool
        ensures { result ≡ hears self channel }
    {
        channel == self.channel || self.omni == 1
    }
}

// A check that a message fails, with what it expects: document 01's tests 10 to 16, and 22.
#[derive(Clone, Copy, Debug, PartialEq, Eq)]
pub enum Check {
    // The most bytes of a message.
    TooLong(u16),
    // The device byte of the header.
    Ours(u8),
    OpcodeAndType,
    // The whole length for this opcode and type, and that of the shortest dump: another where programs have a spare byte.
    Length(u16, u16),
    // The highest program.
    Program(u8),
    Version(u8),
    // The highest half byte.
    HalfBytes(u8),
    // The channel of an identity request, beside 0x7F.
    Channel(u8),
}

// What a message asks for.
#[derive(Clone, Copy, Debug, PartialEq, Eq)]
pub enum Order {
    // The identity reply, with its cc.
    Identify(u8),
    // The dump of what is named.
    Send(Target),
    // What is named becomes the bytes of the dump.
    Store(Target),
}

// What the box answers. A SysEx is stored, or answered with so many bytes; a program change that is taken is `Stored` too.
#[derive(Clone, Copy, Debug, PartialEq, Eq)]
pub enum Answer {
    Taken,
    Stored,
    Sent(u16),
    Applied,
    Cut,
}

pub type Answered = Result<Answer, Refusal>;
