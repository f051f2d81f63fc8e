// One controller's sweeps.
use crate::buffer;
use crate::buffer::Edit;
use crate::tally::Tally;
use ground::Refusal;
use kinds::Kind;

// "3 controller applied": so the lines have it.
const APPLIED: u32 = 3;

// The values that are applied: 0 to 127, and one past them.
const VALUES: u32 = 129;

// A controller of a kind. Its sweeps are loops: a step hands on what it counts, as a fold would, and has more lines.
#[derive(Clone, Copy)]
pub(crate) struct Swept {
    pub(crate) controller: u32,
    pub(crate) kind: Kind,
}

impl Swept {
    // Scaling, for each value that a byte has.
    pub(crate) fn scaled(self) -> Tally {
        let mut tally = Tally::default();
        for value in 0..256 {
            tally = tally.noted(controls::scale(self.controller, value, self.kind));
        }
        tally
    }

    // Applying, for each setting of byte 46 and, under it, each value.
    pub(crate) fn applied(self) -> Tally {
        let mut tally = Tally::default();
        for setting in 0..=255 {
            for value in 0..VALUES {
                tally = self.applied_once(tally, value, setting);
            }
        }
        tally
    }

    // The answer's number, and then what stands in the buffer afterwards.
    fn applied_once(self, tally: Tally, value: u32, setting: u8) -> Tally {
        let mut edit = buffer::made(value, setting);
        let answered = match controls::apply(self.controller, value, self.kind, &mut edit) {
            Ok(()) => tally.counted().mixed(APPLIED),
            Err(refusal) => tally.mixed(u8::from(refusal) as u32),
        };
        answered.mixed(buffer::weighed(&edit))
    }

    // Showing back, for each setting, and then for each number in the field.
    pub(crate) fn shown(self) -> Tally {
        self.shown_numbers(self.shown_settings())
    }

    fn shown_settings(self) -> Tally {
        let mut tally = Tally::default();
        for setting in 0..=255 {
            tally = tally.noted(self.shown_from(&buffer::made(0, setting)));
        }
        tally
    }

    // The buffer is made once: each number takes the place of the one before.
    fn shown_numbers(self, before: Tally) -> Tally {
        let Some(row) = controls::row_of(self.controller, self.kind) else {
            return before;
        };
        let width = row.width as usize;
        let mut edit = buffer::made(0, self.first_selecting());
        let mut tally = before;
        for number in 0..1 << (8 * width) {
            buffer::put(&mut edit, row.place as usize, width, number);
            tally = tally.noted(self.shown_from(&edit));
        }
        tally
    }

    // The whole buffer, so that nobody who changed it has to show its length.
    fn shown_from(self, edit: &Edit) -> Result<u16, Refusal> {
        controls::show_back(self.controller, self.kind, edit)
    }

    // The smallest setting that selects the controller's effect, 0 where it needs none; 255 where no smaller one does.
    fn first_selecting(self) -> u8 {
        (0..255)
            .find(|setting| self.shown_from(&buffer::made(0, *setting))
                != Err(Refusal::NotSelected))
            .unwrap_or(255)
    }
}
