// What is counted and digested over a run of answers.
use ground::Refusal;
use std::fmt;

#[derive(Clone, Copy, Debug, Default, PartialEq, Eq)]
pub(crate) struct Tally {
    pub(crate) count: u32,
    pub(crate) digest: u64,
}

// Its two fields of a line.
impl fmt::Display for Tally {
    fn fmt<W: fmt::Write>(&self, f: &mut fmt::Formatter<W>) -> fmt::Result {
        write!(f, "\t{}\t{}", self.count, self.digest)
    }
}

// A digest is below this.
const MODULUS: u64 = 4294967291;

impl Tally {
    // One more counted, up to the largest count that there is.
    pub(crate) fn counted(self) -> Tally {
        Tally {
            count: self.count.saturating_add(1),
            ..self
        }
    }

    // One more number in the digest, which is reduced first so that any tally may come.
    pub(crate) fn mixed(self, number: u32) -> Tally {
        Tally {
            digest: (self.digest % MODULUS * 1000003 + number as u64) % MODULUS,
            ..self
        }
    }

    // A value is counted and mixed in. A refusal is mixed in by its number, above every value: so the lines are printed.
    pub(crate) fn noted(self, reading: Result<u16, Refusal>) -> Tally {
        match reading {
            Ok(value) => self.counted().mixed(value as u32),
            Err(refusal) => self.mixed(65536 + u8::from(refusal) as u32),
        }
    }
}
