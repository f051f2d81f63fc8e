// The kinds of unit that a box may be set as, and all that hangs on the kind: a further kind is a case more of each `match`.
#![tactic(auto, unfolding(crate::specs::Kinds::kind_from, crate::specs::Kinds::is_kind, crate::specs::Kinds::kind_of, crate::specs::Kinds::size_of, crate::specs::Kinds::has_spare, crate::specs::Kinds::device_of, crate::specs::Kinds::identity_of, crate::specs::Kinds::takes_program_change, crate::specs::Kinds::highest_model, crate::specs::Kinds::is_known_model))]

ghost use Rattle.std.specs.Prelude.{◌≡◌};
ghost use Rattle.kinds.specs.Kinds.{is_kind, kind_of, size_of, has_spare, device_of, header_of, identity_of, takes_program_change, highest_model, is_known_model};

use ground::Refusal;
use std::str::FromStr;

#[derive(Clone, Copy, Debug, PartialEq, Eq)]
pub enum Kind {
    Pod,
    BassPod,
    PodPro,
}

// The bytes of the largest program of any kind: a buffer that serves each of them is as long as this asks.
pub const LARGEST: usize = 80;

// The numbers by which a call names its kind: C hands over numbers.
pub const POD: u32 = 0;

pub const BASS_POD: u32 = 1;

pub const POD_PRO: u32 = 2;

// Whether a number is that of a kind. It and `kind_of` cannot fail, and stand beside `try_from`, which can.
pub fn is_kind(number: u32) -> bool
    ensures { result ≡ is_kind number }
{
    number <= POD_PRO
}

// The kind of a number; one that is no kind is refused before anybody asks this.
pub fn kind_of(number: u32) -> Kind
    ensures { result ≡ kind_of number }
{
    match number {
        BASS_POD => Kind::BassPod,
        POD_PRO => Kind::PodPro,
        _ => Kind::Pod,
    }
}

// The kind of a number, or its refusal.
impl TryFrom<u32> for Kind {
    ghost use Rattle.std.specs.Prelude.{◌≡◌};
    ghost use Rattle.kinds.specs.Kinds.{kind_from};

    type Error = Refusal;

    ghost try_from_gives = { λ number kind. kind ≡ kind_from number };

    fn try_from(number: u32) -> Result<Kind, Refusal> {
        if is_kind(number) {
            Ok(kind_of(number))
        } else {
            Err(Refusal::Unsound)
        }
    }
}

// The kind that a program's word names.
impl FromStr for Kind {
    ghost use Rattle.std.specs.Prelude.{◌≡◌};
    ghost use Rattle.kinds.specs.Kinds.{IsKindNamed};

    type Err = Refusal;

    ghost from_str_gives = { IsKindNamed };

    fn from_str(word: &str) -> Result<Kind, Refusal> {
        match word {
            "pod" => Ok(Kind::Pod),
            "bass" => Ok(Kind::BassPod),
            "pro" => Ok(Kind::PodPro),
            _ => Err(Refusal::Unsound),
        }
    }
}

impl Kind {
    // The bytes of a program, and of the edit buffer.
    pub fn size(self) -> u8
        ensures { result ≡ size_of self }
    {
        match self {
            Kind::Pod => 72,
            Kind::BassPod => 80,
            Kind::PodPro => 72,
        }
    }

    // Whether the last byte of a program is a spare one, which a dump may leave out.
    pub fn has_spare(self) -> bool
        ensures { result ≡ has_spare self }
    {
        match self {
            Kind::Pod => true,
            Kind::BassPod => false,
            Kind::PodPro => true,
        }
    }

    // The device byte: the last of the header.
    pub fn device(self) -> u8
        ensures { result ≡ device_of self }
    {
        match self {
            Kind::Pod => 0x01,
            Kind::BassPod => 0x02,
            Kind::PodPro => 0x01,
        }
    }

    // How every message but an identity request begins, and every dump that is sent.
    pub fn header(self) -> [u8; 5]
        ensures { result ≡ header_of self }
    {
        match self {
            Kind::Pod => *b"\xF0\x00\x01\x0C\x01",
            Kind::BassPod => *b"\xF0\x00\x01\x0C\x02",
            Kind::PodPro => *b"\xF0\x00\x01\x0C\x01",
        }
    }

    // The family and the member that an identity reply tells.
    pub fn identity(self) -> [u8; 4]
        ensures { result ≡ identity_of self }
    {
        match self {
            Kind::Pod => *b"\x00\x00\x00\x01",
            Kind::BassPod => *b"\x02\x00\x00\x00",
            Kind::PodPro => *b"\x00\x00\x00\x04",
        }
    }

    // Whether a program change copies a program into the edit buffer.
    pub fn takes_program_change(self) -> bool
        ensures { result ≡ takes_program_change self }
    {
        match self {
            Kind::Pod => false,
            Kind::BassPod => true,
            Kind::PodPro => false,
        }
    }

    // The highest amp model that is known.
    pub fn highest_model(self) -> u8
        ensures { result ≡ highest_model self }
    {
        match self {
            Kind::Pod => 27,
            Kind::BassPod => 15,
            Kind::PodPro => 31,
        }
    }

    // Whether an amp model is known: a stored byte, or any number.
    pub fn is_known_model(self, model: u32) -> bool
        ensures { result ≡ is_known_model self model }
    {
        model <= self.highest_model() as u32
    }
}
