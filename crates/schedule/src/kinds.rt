// The words of the kinds.
ghost use Rattle.std.specs.Prelude.{◌≡◌, codes};
ghost use Rattle.schedule.specs.Words.{group_word, pace_word, order_word, only};

use crate::complaint::Cause;
use orders::order::OrderKind;
use orders::start::PaceKind;
use protocol::kind::GroupKind;

#[tactic(auto, unfolding(crate::specs::Words::group_word, crate::specs::Words::is_name))]
pub(crate) fn group_kind(word: &[u8]) -> Result<GroupKind, Cause>
    ensures { result ≡ group_word word.now }
{
    match word {
        b"closed" => Ok(GroupKind::Closed),
        b"expanding" => Ok(GroupKind::Expanding),
        b"dynamic" => Ok(GroupKind::Dynamic),
        _ => Err(Cause::UnknownWord),
    }
}

#[tactic(auto, unfolding(crate::specs::Words::pace_word, crate::specs::Words::is_name))]
pub(crate) fn pace_kind(word: &[u8]) -> Result<PaceKind, Cause>
    ensures { result ≡ pace_word word.now }
{
    match word {
        b"halving" => Ok(PaceKind::Halving),
        b"two-phase" => Ok(PaceKind::TwoPhase),
        _ => Err(Cause::UnknownWord),
    }
}

#[tactic(auto, unfolding(crate::specs::Words::order_word, crate::specs::Words::is_name))]
pub(crate) fn order_kind(word: &[u8]) -> Result<OrderKind, Cause>
    ensures { result ≡ order_word word.now }
{
    match word {
        b"deliver" => Ok(OrderKind::Deliver),
        b"lose" => Ok(OrderKind::Lose),
        b"crash" => Ok(OrderKind::Crash),
        b"join" => Ok(OrderKind::Join),
        b"leave" => Ok(OrderKind::Leave),
        b"wait" => Ok(OrderKind::Wait),
        _ => Err(Cause::UnknownWord),
    }
}

// The word in front of the cap.
#[tactic(auto, unfolding(crate::specs::Words::only, crate::specs::Words::is_name))]
pub(crate) fn cap_word(word: &[u8]) -> Result<(), Cause>
    ensures { result ≡ only (codes "cap") word.now }
{
    match word {
        b"cap" => Ok(()),
        _ => Err(Cause::UnknownWord),
    }
}
