// The sweeps over bytes and half bytes.
use crate::tally::Tally;
use ground::Refusal;
use halves::MoveError;

pub(crate) fn joined_and_split() -> Tally {
    split(joined())
}

// Joining, for each high byte and, beside it, each low one.
fn joined() -> Tally {
    let mut tally = Tally::default();
    for high in 0..=255 {
        for low in 0..=255 {
            tally = joined_once(tally, high, low);
        }
    }
    tally
}

fn joined_once(tally: Tally, high: u8, low: u8) -> Tally {
    let mut byte = [0];
    match halves::join_into(&[high, low], &mut byte) {
        Ok(()) => tally.counted().mixed(u32::from(byte[0])),
        Err(MoveError::Above) => tally.noted(Err(Refusal::NoHalfByte)),
        // There are two half bytes for the one byte.
        Err(MoveError::Misfit) => tally,
    }
}

// Splitting, for each byte.
fn split(before: Tally) -> Tally {
    (0..=255).fold(before, split_once)
}

#[tactic(auto, unfolding(halves::specs::Moving::split_into))]
fn split_once(tally: Tally, byte: u8) -> Tally {
    let mut pair = [0; 2];
    // There are two half bytes for the one byte.
    halves::split_into(&[byte], &mut pair).unwrap();
    tally.mixed(u32::from(pair[0])).mixed(u32::from(pair[1]))
}
