// All that the box holds from call to call but for what belongs to one socket, as a call lends it: memory, and a mark for
// each program and edit buffer. Both are as long as the kind asks; more may be lent. They are two buffers, for C keeps them.
ghost use Rattle.std.specs.Prelude.{◌≤◌, length};
ghost use Rattle.programs.specs.Memory.{memory_size, mark_count};

use kinds::Kind;

#[derive(Drop)]
pub struct Held<'a> {
    pub kind: Kind,
    pub memory: &'a mut [u8],
    pub marks: &'a mut [u8],
    ghost whole: { memory_size kind ≤ length memory.now },
    ghost marked: { mark_count ≤ length marks.now },
}
