// The programs and the players' edit buffers in memory: how many there are, and where they stand. All lengths of the box
// derive from these and from the kind.
#![tactic(auto, unfolding(crate::specs::Memory::player_from, crate::specs::Memory::is_player, crate::specs::Memory::player_of, crate::specs::Memory::edit_slot))]

mod held;

ghost use Rattle.std.specs.Prelude.{◌≡◌};
ghost use Rattle.programs.specs.Memory.{is_player, player_of, edit_slot, edit_place, memory_size};
ghost use Rattle.programs.specs.Held.{place_for, count_for, slot_for, slots_for};

use ground::Refusal;
pub use held::Held;
use kinds::Kind;

pub const PROGRAMS: usize = 36;

// A mark for each program, and for each player's edit buffer.
pub const MARKS: usize = PROGRAMS + 2;

// The two who play: each has an edit buffer, and they share the programs.
#[derive(Clone, Copy, Debug, PartialEq, Eq)]
pub enum Player {
    One,
    Two,
}

// Whether a number is that of a player, or of the socket that is the player's. It and `player_of` cannot fail, and stand
// beside `try_from`, which can.
pub fn is_player(number: u32) -> bool
    ensures { result ≡ is_player number }
{
    number <= 1
}

// The player of a number; one that is no player's is refused before anybody asks this.
pub fn player_of(number: u32) -> Player
    ensures { result ≡ player_of number }
{
    match number {
        0 => Player::One,
        _ => Player::Two,
    }
}

// The player of a number, or its refusal.
impl TryFrom<u32> for Player {
    ghost use Rattle.std.specs.Prelude.{◌≡◌};
    ghost use Rattle.programs.specs.Memory.{player_from};

    type Error = Refusal;

    ghost try_from_gives = { λ number player. player ≡ player_from number };

    fn try_from(number: u32) -> Result<Player, Refusal> {
        if is_player(number) {
            Ok(player_of(number))
        } else {
            Err(Refusal::NoPlayer)
        }
    }
}

// The bytes of memory: the programs, and the two edit buffers behind them. Who is lent memory asks for them in a line of
// its own: what a short one is answered stands there among other tests.
pub fn memory_size(kind: Kind) -> usize
    ensures { result ≡ memory_size kind }
{
    (PROGRAMS + 2) * kind.size() as usize
}

impl Player {
    // The number of a player's edit buffer, behind those of the programs.
    pub fn edit_slot(self) -> usize
        ensures { result ≡ edit_slot self }
    {
        match self {
            Player::One => PROGRAMS,
            Player::Two => PROGRAMS + 1,
        }
    }

    // Where it begins.
    pub fn edit_place(self, kind: Kind) -> usize
        ensures { result ≡ edit_place kind self }
    {
        self.edit_slot() * kind.size() as usize
    }
}

// What a dump or a request names: one program, the edit buffer of its sender, all programs.
#[derive(Clone, Copy, Debug, PartialEq, Eq)]
pub enum Target {
    One(u8),
    Edit,
    All,
}

impl Target {
    // Its first slot, in the order of memory and of the marks.
    pub fn slot(self, player: Player) -> usize
        ensures { result ≡ slot_for player self }
    {
        match self {
            Target::One(program) => program as usize,
            Target::Edit => player.edit_slot(),
            Target::All => 0,
        }
    }

    // How many slots it has.
    pub fn slots(self) -> usize
        ensures { result ≡ slots_for self }
    {
        match self {
            Target::One(_) => 1,
            Target::Edit => 1,
            Target::All => PROGRAMS,
        }
    }

    // Where it begins in memory.
    pub fn place(self, kind: Kind, player: Player) -> usize
        ensures { result ≡ place_for kind player self }
    {
        self.slot(player) * kind.size() as usize
    }

    // How many bytes it has.
    pub fn count(self, kind: Kind) -> usize
        ensures { result ≡ count_for kind self }
    {
        self.slots() * kind.size() as usize
    }
}
