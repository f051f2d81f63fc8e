// Bytes and half bytes, over any length.
#![tactic(auto, unfolding(crate::specs::Moving::split_into, crate::specs::Moving::join_into, crate::specs::Moving::join_any_into), using(ground::proofs::Tests::tests))]

mod flags;

ghost use Rattle.std.specs.Prelude.{◌≡◌, ◌*◌, ◌+◌, ◌%◌, max, fold, length};
ghost use Rattle.ground.specs.Lists.{all_at_most};
ghost use Rattle.halves.specs.HalfBytes.{split, join_any};
ghost use Rattle.halves.specs.Moving.{filled, split_into, join_into, join_any_into};

pub use flags::all_flags;

// The highest half byte.
pub const HALF: u8 = 0x0F;

// Why nothing was split or joined. Nothing is written then.
#[derive(Clone, Copy, Debug, PartialEq, Eq)]
pub enum MoveError {
    // There are not two half bytes for each byte.
    Misfit,
    // A half byte is above 0x0F.
    Above,
}

// Whether each byte of the list is at most `top`.
#[tactic(auto, using(crate::proofs::Turns::most_at_most))]
pub fn all_at_most(list: &[u8], top: u8) -> bool
    ensures { result ≡ all_at_most top list.now }
{
    most(list) <= top
}

// The largest byte, or 0. The fold has no way out before its end, so that the compiler can look at many bytes at once.
fn most(list: &[u8]) -> u8
    ensures { result ≡ fold max 0 list.now }
{
    list.iter().fold(0, |most, byte| most.max(*byte))
}

// Each byte as its high half, then its low half.
pub fn split_into(bytes: &[u8], halves: &mut [u8]) -> Result<(), MoveError>
    ensures { filled result halves.new ≡ split_into bytes.now halves.old }
{
    if halves.len() != 2 * bytes.len() {
        return Err(MoveError::Misfit);
    }
    split_all(bytes, halves);
    Ok(())
}

// By places: of a chunk that `chunks_exact_mut` lends, a caller learns no more than its length.
fn split_all(bytes: &[u8], halves: &mut [u8])
    requires { length halves.old ≡ 2 * length bytes.now }
    ensures { halves.new ≡ split bytes.now }
{
    for (i, byte) in bytes.iter().enumerate() {
        halves[2 * i] = byte / 16;
        halves[2 * i + 1] = byte % 16;
    }
}

// Each two half bytes as one byte. All of them are looked at before the first byte is written.
#[tactic(auto, unfolding(crate::specs::Moving::join_into, crate::specs::Moving::join_any_into), using(crate::proofs::Laws::join_any_halves))]
pub fn join_into(halves: &[u8], bytes: &mut [u8]) -> Result<(), MoveError>
    ensures { filled result bytes.new ≡ join_into halves.now bytes.old }
{
    if halves.len() == 2 * bytes.len() && !all_at_most(halves, HALF) {
        return Err(MoveError::Above);
    }
    join_any(halves, bytes)
}

// Each two bytes as one, without a look at them: for half bytes that were looked at before.
pub fn join_any(halves: &[u8], bytes: &mut [u8]) -> Result<(), MoveError>
    ensures { filled result bytes.new ≡ join_any_into halves.now bytes.old }
{
    if halves.len() == 2 * bytes.len() {
        join_all(halves, bytes);
        return Ok(());
    }
    Err(MoveError::Misfit)
}

// The same back.
#[tactic(auto, using(crate::proofs::Turns::join_turn))]
fn join_all(halves: &[u8], bytes: &mut [u8])
    requires { length halves.now ≡ 2 * length bytes.old }
    ensures { bytes.new ≡ join_any halves.now }
{
    for (i, byte) in bytes.iter_mut().enumerate() {
        *byte = joined(halves[2 * i], halves[2 * i + 1]);
    }
}

// A byte from its halves, high * 16 + low, by one multiplication of the two as one number: so the compiler reads them as
// one, and many of them at once.
fn joined(high: u8, low: u8) -> u8
    ensures { result ≡ (high * 16 + low) % 256 }
{
    let both = high as u32 + 256 * low as u32;
    (both * 4097 / 256 % 256) as u8
}
