ghost use Rattle.piles.specs.Piles.{Exact as ExactMake, PilesAreExact};

use poll::poll::Poll;
use replicas::replicas::Replicas;
use shared_log::log::Log;
use store::exact::{Exact, each_step_has_one_outcome, refused_puts_keep};

// Theorem: over replicas, the log, poll over each, and poll over poll over replicas, each step has one outcome and a
// refused put leaves the whole state as it was. Its code only names the stores.
pub fn piles_are_exact()
    ensures { PilesAreExact }
{
    make_is_exact::<Replicas>();
    make_is_exact::<Log>();
    make_is_exact::<Poll<Replicas>>();
    make_is_exact::<Poll<Log>>();
    make_is_exact::<Poll<Poll<Replicas>>>();
}

// Theorem: the make of an exact store is exact.
fn make_is_exact<S: Exact>()
    ensures { ExactMake S.Store.kind }
{
    each_step_has_one_outcome::<S>();
    refused_puts_keep::<S>();
}
