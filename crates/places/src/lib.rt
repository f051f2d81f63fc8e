// The place of the first bad half byte.
#![tactic(auto)]

ghost use Rattle.std.specs.Prelude.{◌≡◌};
ghost use Rattle.places.specs.Places.{first_bad};

use halves::{HALF, all_at_most};

// Where the first half byte above 0x0F stands: its place, from 0, and the program that it spoils.
#[derive(Clone, Copy, Debug, PartialEq, Eq)]
pub struct Bad {
    pub place: usize,
    pub program: usize,
}

// The first bad one of `programs` programs, of `per` half bytes each. Most data is good, so all of it is looked at first,
// by the loop that the compiler makes quick, and place after place only where that failed.
#[tactic(auto, using(crate::proofs::Searching::none_at_all))]
pub fn first_bad(halves: &[u8], programs: usize, per: usize) -> Option<Bad>
    ensures { result ≡ first_bad programs per halves.now }
{
    if all_at_most(halves, HALF) {
        return None;
    }
    searched(halves, programs, per)
}

// Program after program and half byte after half byte, as far as they go: nested loops left by label at the first bad one,
// the form that document 01 names.
#[tactic(auto, using(crate::proofs::Searching::one_more, crate::proofs::Searching::none_to_the_end, crate::proofs::Searching::none_looked))]
fn searched(halves: &[u8], programs: usize, per: usize) -> Option<Bad>
    ensures { result ≡ first_bad programs per halves.now }
{
    'programs: {
        for program in 0..programs {
            for half in 0..per {
                let place = program * per + half;
                if halves.len() <= place {
                    break 'programs None;
                }
                if HALF < halves[place] {
                    break 'programs Some(Bad { place, program });
                }
            }
        }
        None
    }
}
