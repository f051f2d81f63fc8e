// A controller that is in the table of its kind.
ghost use Rattle.std.specs.Prelude.{◌≡◌, ◌≤◌, ◌+◌, true};
ghost use Rattle.kinds.specs.Kinds.{size_of};
ghost use Rattle.controls.specs.Private.{least_of, takes};

use crate::Row;
use kinds::Kind;

// Its row: the field lies in a program of the kind and takes data bytes, and its numbers are its formula's.
#[derive(Clone, Copy)]
pub(crate) struct Control {
    pub(crate) kind: Kind,
    pub(crate) row: Row,
    ghost inside: { row.place + row.width ≤ size_of kind },
    ghost narrow: { (1 ≤ row.width) × (row.width ≤ 3) },
    ghost low: { row.highest ≤ 127 },
    ghost raised: { row.least ≡ least_of row.formula },
    ghost taken: { takes row.formula row.highest ≡ true },
}
