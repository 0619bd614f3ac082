ghost use Rattle.std.specs.Prelude.{◌≡◌, ℕ, ◌↔◌, IsTrue};
ghost use Rattle.poll.specs.Holding.{snapshot_of, shown_below, SameStamps, OnlySnapshot, AsItWas};
ghost use Rattle.poll.specs.Poll.{copy_of, same_stamp};

use crate::poll::Poll;
use causal::choose::stamp_of;
use store::spot::Spot;
use store::store::Store;
use versions::version::Version;

impl<S: Store> Poll<S> {
    // Copies what the store below shows at every spot.
    #[tactic(auto, using(store::proofs::Registering::past_registers))]
    pub(crate) fn copy(&mut self)
        ensures copied { (s k : ℕ) → snapshot_of self.new s k ≡ copy_of (shown_below S.Store.kind S.Store.state self.old) s k }
        ensures rest { OnlySnapshot S.Store.kind S.Store.state self.old self.new }
    {
        for spot in Spot::all() {
            let found = self.shown_below(&spot);
            self.snapshot.write(spot, &found);
        }
    }

    // Whether all stamps of the snapshot equal those shown below.
    pub(crate) fn same_stamps(&mut self) -> bool
        ensures same { IsTrue result ↔ SameStamps (snapshot_of self.old) (shown_below S.Store.kind S.Store.state self.old) }
        ensures rest { AsItWas S.Store.kind S.Store.state self.old self.new }
    {
        for spot in Spot::all() {
            if !self.same_stamp(spot) {
                return false;
            }
        }
        true
    }

    // Whether the stamp of the snapshot at a spot equals the one shown below.
    fn same_stamp(&mut self, spot: Spot) -> bool
        ensures same { result ≡ same_stamp (snapshot_of self.old) (shown_below S.Store.kind S.Store.state self.old) spot.site spot.key }
        ensures rest { AsItWas S.Store.kind S.Store.state self.old self.new }
    {
        let below = self.shown_below(&spot);
        self.snapshot.stamp_at(spot) == stamp_of(&below)
    }

    // What the store below shows at a spot.
    fn shown_below(&mut self, spot: &Spot) -> Option<Version>
        ensures shown { result ≡ shown_below S.Store.kind S.Store.state self.old spot.now.site spot.now.key }
        ensures rest { AsItWas S.Store.kind S.Store.state self.old self.new }
    {
        // Kept a match: `.ok().flatten()` moves a version twice more, 128 times in each copying.
        match self.below.ask(spot.site.number(), spot.key.number()) {
            Ok(found) => found,
            Err(_) => None,
        }
    }
}
