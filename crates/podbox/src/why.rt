// Why a message is refused, or what is done.
ghost use Rattle.std.specs.Prelude.{◌≡◌};
ghost use Rattle.podbox.specs.Whole.{reason_of};

use crate::{panel, settings};
use kinds::Kind;
use sysex::{Check, Order};

// What becomes of a message that a fresh box of this kind is handed.
#[tactic(auto, unfolding(sysex::specs::Judging::judge_of, crate::specs::Settings::fresh_settings, crate::specs::Whole::message_order, crate::specs::Private::body_in), using(ground::proofs::Tests::tests, crate::proofs::Taking::bounds))]
pub fn reason(message: &[u8], kind: Kind) -> Result<Order, Check>
    ensures { result ≡ reason_of kind message.now }
{
    let body = panel::body(message, kind)?;
    sysex::judge(body, kind, settings::FRESH_SETTINGS)
}
