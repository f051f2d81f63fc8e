// Whether each byte of a list is 0 or 1. Eight bytes are looked at as one number, which the compiler reads as one.
ghost use Rattle.std.specs.Prelude.{◌≡◌};
ghost use Rattle.std.specs.List.{list_all};
ghost use Rattle.ground.specs.Lists.{all_at_most};

use crate::all_at_most;

// Whether each byte of the list is at most 1. The last eight are looked at by themselves, whether or not some of them
// were among the eight before.
pub fn all_flags(list: &[u8]) -> bool
    ensures { result ≡ all_at_most 1 list.now }
{
    let Some(last) = list.last_chunk::<8>() else {
        return all_at_most(list, 1);
    };
    let (eights, _) = list.as_chunks::<8>();
    each_are_flags(eights) && are_flags(last)
}

fn each_are_flags(eights: &[[u8; 8]]) -> bool
    ensures { result ≡ list_all (all_at_most 1) eights.now }
{
    eights.iter().all(|eight| are_flags(eight))
}

// Whether each of eight bytes is at most 1: no bit of theirs but the lowest is set.
#[tactic(auto, using(crate::proofs::Clear::eight_clear))]
fn are_flags(eight: &[u8; 8]) -> bool
    ensures { result ≡ all_at_most 1 eight.now }
{
    u64::from_le_bytes(*eight) & 0xFEFE_FEFE_FEFE_FEFE == 0
}
