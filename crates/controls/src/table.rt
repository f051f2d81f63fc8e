// The table of each kind of unit, row by row in the documents' order.
ghost use Rattle.std.specs.Prelude.{◌≡◌, Some};
ghost use Rattle.kinds.specs.declared.Kind.TheVariants.{Pod, BassPod};
ghost use Rattle.controls.specs.Table.{row_as, row_of, if_listed, effect_of, selected};

use crate::Column::{Threshold, Times22Plus100, Times25, Times50, Times256Over42, Times256Over104};
use crate::Effect::{Chorus, Compressor, Rotary, Swell, Tremolo};
use crate::Formula::{AsReceived, MLower, MUpper, OnSheet, Quotient};
use crate::{Effect, Formula, Row};
use kinds::Kind;

fn row(
    place: u8,
    width: u8,
    formula: Formula,
    least: u8,
    highest: u8,
    effect: Option<Effect>,
) -> Row
    ensures { result ≡ row_as place width formula least highest effect }
{
    Row {
        place,
        width,
        formula,
        least,
        highest,
        effect,
    }
}

// The row of a controller of a kind, if it has one.
#[tactic(auto, using(ground::proofs::Tests::tests))]
#[inline(always)]
pub fn row_of(controller: u32, kind: Kind) -> Option<Row>
    ensures { result ≡ if_listed (row_of kind controller) }
{
    let row = kind_row(controller, kind);
    if row.width == 0 { None } else { Some(row) }
}

// The same, of no bytes where it has none: a row takes one look-up and one store, an `Option` of one, a byte longer, two of
// each. A POD Pro has two rows of its own, and goes on as a POD.
#[tactic(auto, unfolding(crate::specs::Table::row_of, crate::specs::Table::table, kinds::specs::Kinds::highest_model), using(ground::proofs::Tests::tests))]
#[inline(always)]
fn kind_row(controller: u32, kind: Kind) -> Row
    ensures { result ≡ row_of kind controller }
{
    match kind {
        Kind::Pod => pod_row(controller),
        Kind::BassPod => bass_row(controller),
        Kind::PodPro => match controller {
            12 => row(8, 1, AsReceived, 0, 31, None),
            9 => row(35, 1, Quotient(2), 0, 127, None),
            _ => pod_row(controller),
        },
    }
}

// The 49 controllers of a POD: the first byte of the field, the bytes, the formula, the least number, the highest value,
// the effect. A call of its own: built into a caller, its arms are jumps, and no table.
#[tactic(auto, unfolding(crate::specs::Table::row_of, crate::specs::Table::table, kinds::specs::Kinds::highest_model), using(ground::proofs::Tests::tests))]
#[inline(never)]
fn pod_row(controller: u32) -> Row
    ensures { result ≡ row_of Pod controller }
{
    match controller {
        25 => row(0, 1, Quotient(64), 0, 127, None),
        26 => row(1, 1, Quotient(64), 0, 127, None),
        27 => row(2, 1, Quotient(64), 0, 127, None),
        28 => row(3, 1, Quotient(64), 0, 127, None),
        50 => row(4, 1, Quotient(64), 0, 127, None),
        36 => row(5, 1, Quotient(64), 0, 127, None),
        22 => row(6, 1, Quotient(64), 0, 127, None),
        73 => row(7, 1, Quotient(64), 0, 127, None),
        47 => row(24, 1, Quotient(64), 0, 127, None),
        37 => row(38, 1, Quotient(64), 0, 127, None),
        13 => row(9, 1, Quotient(2), 0, 127, None),
        20 => row(10, 1, Quotient(2), 0, 127, None),
        14 => row(11, 1, Quotient(2), 0, 127, None),
        15 => row(12, 1, Quotient(2), 0, 127, None),
        16 => row(13, 1, Quotient(2), 0, 127, None),
        21 => row(14, 1, Quotient(2), 0, 127, None),
        17 => row(15, 1, Quotient(2), 0, 127, None),
        24 => row(17, 1, Quotient(2), 0, 127, None),
        32 => row(34, 1, Quotient(2), 0, 127, None),
        34 => row(36, 1, Quotient(2), 0, 127, None),
        38 => row(39, 1, Quotient(2), 0, 127, None),
        39 => row(40, 1, Quotient(2), 0, 127, None),
        40 => row(41, 1, Quotient(2), 0, 127, None),
        41 => row(42, 1, Quotient(2), 0, 127, None),
        18 => row(43, 1, Quotient(2), 0, 127, None),
        72 => row(45, 1, Quotient(2), 0, 127, None),
        1 => row(47, 1, Quotient(2), 0, 127, None),
        4 => row(18, 1, AsReceived, 0, 127, None),
        44 => row(19, 1, AsReceived, 0, 127, None),
        45 => row(20, 1, AsReceived, 0, 127, None),
        7 => row(22, 1, AsReceived, 0, 127, None),
        46 => row(23, 1, AsReceived, 0, 127, None),
        12 => row(8, 1, AsReceived, 0, 27, None),
        71 => row(44, 1, AsReceived, 0, 15, None),
        19 => row(46, 1, AsReceived, 0, 15, None),
        23 => row(16, 1, OnSheet(Threshold), 0, 127, None),
        30 => row(26, 3, MUpper, 0, 127, None),
        62 => row(26, 3, MLower, 0, 127, None),
        49 => row(48, 1, Quotient(2), 0, 127, Some(Swell)),
        42 => row(48, 1, Quotient(22), 0, 127, Some(Compressor)),
        51 => row(48, 2, OnSheet(Times50), 200, 127, Some(Chorus)),
        52 => row(50, 2, OnSheet(Times256Over104), 0, 127, Some(Chorus)),
        53 => row(52, 1, AsReceived, 0, 127, Some(Chorus)),
        54 => row(53, 2, OnSheet(Times256Over42), 1, 127, Some(Chorus)),
        55 => row(48, 1, Quotient(64), 0, 127, Some(Rotary)),
        56 => row(49, 2, OnSheet(Times22Plus100), 0, 127, Some(Rotary)),
        57 => row(51, 2, OnSheet(Times22Plus100), 0, 127, Some(Rotary)),
        58 => row(48, 2, OnSheet(Times25), 150, 127, Some(Tremolo)),
        59 => row(50, 1, AsReceived, 0, 127, Some(Tremolo)),
        _ => row(0, 0, Quotient(64), 0, 0, None),
    }
}

// The ten of a Bass POD.
#[tactic(auto, unfolding(crate::specs::Table::row_of, crate::specs::Table::table, kinds::specs::Kinds::highest_model), using(ground::proofs::Tests::tests))]
fn bass_row(controller: u32) -> Row
    ensures { result ≡ row_of BassPod controller }
{
    match controller {
        12 => row(3, 1, AsReceived, 0, 15, None),
        19 => row(49, 1, AsReceived, 0, 15, None),
        64 => row(2, 1, Quotient(64), 0, 127, None),
        13 => row(4, 1, Quotient(2), 0, 127, None),
        14 => row(6, 1, Quotient(2), 0, 127, None),
        15 => row(7, 1, Quotient(2), 0, 127, None),
        16 => row(8, 1, Quotient(2), 0, 127, None),
        17 => row(10, 1, Quotient(2), 0, 127, None),
        18 => row(11, 1, Quotient(2), 0, 127, None),
        1 => row(50, 1, Quotient(2), 0, 127, None),
        _ => row(0, 0, Quotient(64), 0, 0, None),
    }
}

impl Effect {
    // The effect that byte 46 selects.
    #[tactic(auto, unfolding(crate::specs::Table::effect_of, crate::specs::Table::selections), using(ground::proofs::Tests::tests))]
    fn selected_by(byte46: u8) -> Option<Effect>
        ensures { result ≡ effect_of byte46 }
    {
        match byte46 {
            14 => Some(Swell),
            7 | 11 => Some(Compressor),
            0 | 1 | 3 | 4 | 8 | 12 | 13 | 15 => Some(Chorus),
            2 => Some(Rotary),
            5 | 9 => Some(Tremolo),
            _ => None,
        }
    }
}

// Whether a row's effect is the selected one, or it needs none.
#[tactic(auto, unfolding(crate::specs::Table::selected))]
pub(crate) fn is_selected(effect: Option<Effect>, byte46: u8) -> bool
    ensures { result ≡ selected effect byte46 }
{
    effect.is_none() || effect == Effect::selected_by(byte46)
}
