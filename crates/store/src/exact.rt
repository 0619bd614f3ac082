ghost use Rattle.store.specs.Kinds.{EachStepHasOneOutcome, RefusedKeeps};

use crate::store::Store;

// A store of whose make every step has one outcome, and a refused put leaves the whole state as it was.
pub trait Exact: Store {
    // the same put, or a tick, from the same state gives the same answer and state
    ghost one_outcome: { EachStepHasOneOutcome Self.kind };

    // a refused put leaves the whole state as it was
    ghost keeps: { RefusedKeeps Self.kind };
}

// Theorem: every step of an exact store has one outcome. It has no code.
pub fn each_step_has_one_outcome<S: Exact>()
    ensures { EachStepHasOneOutcome S.kind }
{}

// Theorem: a refused put leaves the whole state of an exact store as it was. It has no code.
pub fn refused_puts_keep<S: Exact>()
    ensures { RefusedKeeps S.kind }
{}
