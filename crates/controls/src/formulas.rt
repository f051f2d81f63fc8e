// The formulas, and the way back from a stored number.
ghost use Rattle.std.specs.Prelude.{◌≡◌, ◌≤◌, ◌+◌, ◌/◌, ℕ, length};
ghost use Rattle.kinds.specs.Kinds.{size_of};
ghost use Rattle.controls.specs.Fields.{number_in};
ghost use Rattle.controls.specs.Formulas.{number_for, m_of, next_for};
ghost use Rattle.controls.specs.Private.{divisor_of};
ghost use Rattle.controls.specs.Showing.{smallest, seven_bits, shown_of};

use crate::Formula;
use crate::control::Control;
use ground::Refusal;

impl Formula {
    // What it divides by. A value as received goes the way of the quotients, divided by 1: most controllers go it, and it is
    // one branch for them.
    fn divisor(self) -> u8
        ensures { result ≡ divisor_of self }
    {
        match self {
            Formula::Quotient(divisor) => divisor,
            _ => 1,
        }
    }
}

impl Control {
    // The number for v. The formulas of m need a stored number: they give none here. (A type for a data byte would be taken
    // apart again in each function that asks v ≤ 127.)
    pub(crate) fn number(self, v: u16) -> u16
        requires { v ≤ 127 }
        ensures { result ≡ number_for self.row v }
    {
        match self.row.formula {
            Formula::OnSheet(column) => column.number(v),
            Formula::MUpper | Formula::MLower => 0,
            formula => v / formula.divisor() as u16,
        }
    }

    // The number to store for v. Only the formulas of m look at the one that stands there.
    #[tactic(auto, unfolding(crate::specs::Formulas::m_of, crate::specs::Formulas::next_for))]
    pub(crate) fn next(self, v: u16, edit: &[u8]) -> u32
        requires long { size_of self.kind ≤ length edit.now }
        requires data_byte { v ≤ 127 }
        ensures { result ≡ next_for self.row v (number_in self.row edit.now) }
    {
        match self.row.formula {
            Formula::MUpper => {
                let m = m_of(self.read(edit));
                6 * (v as u32 * 128 + m % 128)
            }
            Formula::MLower => {
                let m = m_of(self.read(edit));
                6 * (m / 128 * 128 + v as u32)
            }
            _ => self.number(v) as u32,
        }
    }

    // The value that shows a stored number.
    #[tactic(auto, unfolding(crate::specs::Formulas::m_of, crate::specs::Showing::shown_of))]
    pub(crate) fn shown(self, stored: u32) -> Result<u16, Refusal>
        ensures { result ≡ shown_of self.row stored }
    {
        match self.row.formula {
            Formula::OnSheet(column) => column.first(stored),
            Formula::MUpper => seven_bits(stored, m_of(stored) / 128),
            Formula::MLower => seven_bits(stored, m_of(stored) % 128),
            formula => self.multiple(formula.divisor(), stored),
        }
    }

    // The smallest value of a quotient is the divisor that many times.
    fn multiple(self, divisor: u8, stored: u32) -> Result<u16, Refusal>
        requires some { 1 ≤ divisor }
        requires quotient { (v : ℕ) → number_for self.row v ≡ v / divisor }
        ensures { result ≡ smallest self.row stored (self.row.highest + 1) 0 }
    {
        let v = stored as u64 * divisor as u64;
        if v <= self.row.highest as u64 {
            Ok(v as u16)
        } else {
            Err(Refusal::NoneGives)
        }
    }
}

// m of a stored number.
#[tactic(auto, unfolding(crate::specs::Formulas::m_of))]
fn m_of(stored: u32) -> u32
    ensures { result ≡ m_of stored }
{
    (stored / 6).min(16383)
}

// Seven bits of m, where the stored number is 6 x m.
#[tactic(auto, unfolding(crate::specs::Formulas::m_of))]
fn seven_bits(stored: u32, bits: u32) -> Result<u16, Refusal>
    requires { bits ≤ 127 }
    ensures { result ≡ seven_bits stored bits }
{
    if stored == 6 * m_of(stored) {
        Ok(bits as u16)
    } else {
        Err(Refusal::NoneGives)
    }
}
