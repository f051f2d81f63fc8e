// The controllers of each kind of unit: a controller to its stored number, and a stored number back to its controller.
#![tactic(auto)]

mod control;
mod fields;
mod formulas;
mod sheet;
mod table;

ghost use Rattle.std.specs.Prelude.{◌≡◌, ◌≤◌, length, [], ◌∷◌, Ok, Err};
ghost use Rattle.ground.specs.Tests.{tested};
ghost use Rattle.kinds.specs.Kinds.{size_of};
ghost use Rattle.controls.specs.Found.{Finds, Lends};
ghost use Rattle.controls.specs.Refusals.{selected_test};
ghost use Rattle.controls.specs.Scaling.{scale_row, scale_of};
ghost use Rattle.controls.specs.Applying.{changed, apply_row, apply_of};
ghost use Rattle.controls.specs.Showing.{back_row, back_of};

use control::Control;
use ground::Refusal;
use kinds::Kind;
pub use table::row_of;

// A row of the table.
#[derive(Clone, Copy, Debug, PartialEq, Eq)]
pub struct Row {
    pub place: u8,
    pub width: u8,
    pub formula: Formula,
    pub least: u8,
    pub highest: u8,
    // The effect that must be selected, if the controller needs one.
    pub effect: Option<Effect>,
}

// How a controller's number comes of a value.
#[derive(Clone, Copy, Debug, PartialEq, Eq)]
pub enum Formula {
    AsReceived,
    Quotient(u8),
    OnSheet(Column),
    // These put the value into m's upper and lower seven bits.
    MUpper,
    MLower,
}

// The columns of the wall sheet.
#[derive(Clone, Copy, Debug, PartialEq, Eq)]
pub enum Column {
    Threshold,
    Times50,
    Times256Over104,
    Times256Over42,
    Times22Plus100,
    Times25,
}

// The effects that share bytes 48 to 54.
#[derive(Clone, Copy, Debug, PartialEq, Eq)]
pub enum Effect {
    Swell,
    Compressor,
    Chorus,
    Rotary,
    Tremolo,
}

// The controller's number for a value.
pub fn scale(controller: u32, value: u32, kind: Kind) -> Result<u16, Refusal>
    ensures { result ≡ scale_of kind controller value }
{
    Control::find(controller, kind)?.scale(value)
}

// The controller's number for a value into its bytes of the edit buffer.
pub fn apply(controller: u32, value: u32, kind: Kind, edit: &mut [u8]) -> Result<(), Refusal>
    ensures { changed result edit.new ≡ apply_of kind controller value edit.old }
{
    Control::lent(controller, kind, edit)?.apply(value, edit)
}

// The smallest value of the controller that gives what stands in its bytes of the edit buffer.
pub fn show_back(controller: u32, kind: Kind, edit: &[u8]) -> Result<u16, Refusal>
    ensures { result ≡ back_of kind controller edit.now }
{
    Control::lent(controller, kind, edit)?.show_back(edit)
}

impl Control {
    #[inline(always)]
    pub(crate) fn find(controller: u32, kind: Kind) -> Result<Control, Refusal>
        ensures { Finds kind controller result }
    {
        match table::row_of(controller, kind) {
            Some(row) => Ok(Control { kind, row }),
            None => Err(Refusal::NotListed),
        }
    }

    // Where the edit buffer is lent.
    #[inline(always)]
    pub(crate) fn lent(controller: u32, kind: Kind, edit: &[u8]) -> Result<Control, Refusal>
        ensures { Lends kind controller edit.now result }
    {
        if edit.len() < kind.size() as usize {
            return Err(Refusal::TooShort);
        }
        Control::find(controller, kind)
    }

    pub(crate) fn scale(self, value: u32) -> Result<u16, Refusal>
        ensures { result ≡ scale_row self.row value }
    {
        match self.row.formula {
            Formula::MUpper | Formula::MLower => Err(Refusal::NotListed),
            _ if value > self.row.highest as u32 => Err(Refusal::OutOfRange),
            _ => Ok(self.number(value as u16)),
        }
    }

    // The buffer is handed down beside the controller: a struct of both would be two, for `show_back` has it to read alone.
    pub(crate) fn apply(self, value: u32, edit: &mut [u8]) -> Result<(), Refusal>
        requires { size_of self.kind ≤ length edit.old }
        ensures { changed result edit.new ≡ apply_row self.kind self.row value edit.old }
    {
        if value > self.row.highest as u32 {
            return Err(Refusal::OutOfRange);
        }
        self.is_selected(edit)?;
        self.store(value as u16, edit);
        Ok(())
    }

    pub(crate) fn show_back(self, edit: &[u8]) -> Result<u16, Refusal>
        requires { size_of self.kind ≤ length edit.now }
        ensures { result ≡ back_row self.kind self.row edit.now }
    {
        self.is_selected(edit)?;
        self.shown(self.read(edit))
    }

    // Byte 46 selects.
    #[tactic(auto, using(crate::proofs::Rows::has_46))]
    fn is_selected(self, edit: &[u8]) -> Result<(), Refusal>
        requires { size_of self.kind ≤ length edit.now }
        ensures { result ≡ tested (selected_test self.row edit.now ∷ []) Err (Ok tt) }
    {
        if table::is_selected(self.row.effect, edit[46]) {
            Ok(())
        } else {
            Err(Refusal::NotSelected)
        }
    }
}
