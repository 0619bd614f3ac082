ghost use Rattle.std.specs.Prelude.{◌≡◌};
ghost use Rattle.store.specs.Meanings.{New};
ghost use Rattle.poll.specs.Holding.{layer_of};
ghost use Rattle.poll.specs.Poll.{poll_start, poll_means, poll_kind};
ghost use Rattle.poll.specs.Layering.{poll_sound, poll_good};
ghost use Rattle.poll.specs.Exactness.{poll_one, poll_keeps};

use crate::period::Period;
use crate::snapshot::Snapshot;
use stamps::refusal::Refusal;
use store::exact::Exact;
use store::put_refusal::PutRefusal;
use store::range::check_ask;
use store::store::Store;
use versions::version::Version;

// A layer over a store of any make.
#[derive(Drop)]
pub struct Poll<S> {
    pub(crate) below: S,
    pub(crate) snapshot: Snapshot,
}

impl<S: Store> Poll<S> {
    // A layer with an empty snapshot over a store.
    pub fn new(period: Period, below: S) -> Poll<S>
        ensures starts { layer_of S.Store.kind S.Store.state result ≡ poll_start S.Store.kind (S.Store.state below) period }
        ensures new { New (S.Store.kind.means (S.Store.state below)) → New (poll_means S.Store.kind (layer_of S.Store.kind S.Store.state result)) }
    {
        Poll {
            below,
            snapshot: Snapshot::new(period),
        }
    }
}

// Kept in each store, though alike: the few lines of `ask` and `put`, which the trait asks of each.
impl<S: Store> Store for Poll<S> {
    ghost kind = { poll_kind S.Store.kind };

    ghost state = { layer_of S.Store.kind S.Store.state };

    ghost sound = { poll_sound S.Store.kind S.Store.sound };

    ghost good = { poll_good S.Store.kind S.Store.state S.Store.good };

    fn ask(&mut self, site: u32, key: u32) -> Result<Option<Version>, Refusal> {
        let spot = check_ask(site, key)?;
        Ok(self.snapshot.read(spot))
    }

    #[tactic(auto, using(crate::specs::Comparing::same_decides))]
    fn settled(&mut self) -> bool {
        self.below.settled() && self.same_stamps()
    }

    fn put(&mut self, site: u32, version: Version) -> Result<(), PutRefusal> {
        self.below.put(site, version).map_err(PutRefusal::passed_up)
    }

    fn tick(&mut self) {
        self.below.tick();
        if self.snapshot.count_down() {
            self.copy();
        }
    }
}

// Over an exact store the layer is exact.
impl<S: Exact> Exact for Poll<S> {
    ghost one_outcome = { poll_one S.Store.kind S.Exact.one_outcome };

    ghost keeps = { poll_keeps S.Store.kind S.Exact.keeps };
}
