// Told: the kind of box that a program's words tell.
#![tactic(auto, unfolding(crate::specs::Told::kind_told, crate::specs::Told::kind_given), using(crate::proofs::Words::no_text))]

ghost use Rattle.std.specs.Prelude.{◌≡◌, map};
ghost use Rattle.told.specs.Told.{kind_told, kind_given};

use ground::Refusal;
use kinds::Kind;
use std::env::FillError;
use std::str;

// No kind has a longer name: the first word is read into a buffer of this size.
pub const LONGEST: usize = 4;

// The kind that the words behind a program's name tell: a POD where there is none.
pub fn kind_told(words: &[&str]) -> Result<Kind, Refusal>
    ensures { result ≡ kind_told (map (λ word. word.now) words.now) }
{
    match words {
        [] => Ok(Kind::Pod),
        [word] => word.parse(),
        _ => Err(Refusal::Unsound),
    }
}

// The same of the words as `Env::arg` hands them to a program: what its call for the first gave, and the buffer that it was
// lent, then what its call for a second gave. A word that is too long, or no text, names no kind.
pub fn kind(
    first: Result<usize, FillError>,
    word: &[u8],
    second: Result<usize, FillError>,
) -> Result<Kind, Refusal>
    ensures { result ≡ kind_given first word.now second }
{
    let length = match (first, second) {
        (Err(FillError::NotPresent), Err(FillError::NotPresent)) => return kind_told(&[]),
        (Ok(length), Err(FillError::NotPresent)) if length <= word.len() => length,
        _ => return Err(Refusal::Unsound),
    };
    let word = str::from_utf8(&word[..length]).map_err(|_| Refusal::Unsound)?;
    kind_told(&[word])
}
