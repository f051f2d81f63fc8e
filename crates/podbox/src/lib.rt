// The box: a whole message from the panel, the reason for its number, a move of a list, and one byte on one socket.
#![tactic(auto, unfolding(crate::specs::Settings::is_valid, crate::specs::Settings::are_marks, crate::specs::Messages::is_controller, crate::specs::Messages::is_program_change, crate::specs::Whole::is_framed, crate::specs::Private::are_largest, crate::specs::Private::body_in, crate::specs::Box::list_answer, crate::specs::Box::move_does, kinds::specs::Kinds::kind_from, programs::specs::Memory::player_from), using(ground::proofs::Tests::tests, crate::proofs::Taking::bounds))]

mod channel;
mod moves;
mod panel;
mod settings;
mod socket;
mod why;

pub use moves::{list_answer, make_move};
pub use panel::whole_message;
pub use settings::{Buffer, FRESH_SETTINGS, LONGEST, MEMORY, Memory};
pub use socket::take_byte;
pub use why::reason;

// A move of a list: a controller, and a value for it.
#[repr(C)]
#[derive(Clone, Copy, Debug, PartialEq, Eq)]
pub struct Move {
    pub controller: u8,
    pub value: u8,
}
