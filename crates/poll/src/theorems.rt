ghost use Rattle.store.specs.Kinds.{EachStepHasOneOutcome, RefusedKeeps};
ghost use Rattle.poll.specs.Copying.{PollLaw, FirstCopyingLaw};
ghost use Rattle.poll.specs.Poll.{poll_kind};

use store::store::Store;

// Theorem: every step of the layer has one outcome if every step below has. It has no code. Kept beside `Exact`: it
// speaks of every store below, exact or not, and so does the next.
pub fn poll_has_one_outcome<S: Store>()
    ensures { EachStepHasOneOutcome S.Store.kind → EachStepHasOneOutcome (poll_kind S.Store.kind) }
{}

// Theorem: a refused put leaves the whole state as it was if it does below. It has no code.
pub fn poll_keeps_when_refusing<S: Store>()
    ensures { RefusedKeeps S.Store.kind → RefusedKeeps (poll_kind S.Store.kind) }
{}

// Theorem: the layer shows what was shown below at the last copying. It has no code.
#[tactic(auto, using(crate::proofs::LastCopy::poll_law))]
pub fn poll_shows_the_last_copy<S: Store>()
    ensures { PollLaw S.Store.kind }
{}

// Theorem: the copying that the wait is counted by is the first that comes no sooner than below's wait. It has no code.
#[tactic(auto, using(crate::specs::Timing::first_copying_law))]
pub fn first_copying_is_the_first()
    ensures { FirstCopyingLaw }
{}
