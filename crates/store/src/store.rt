ghost use Rattle.std.specs.Prelude.{◌≡◌, ◌↔◌, IsTrue};
ghost use Rattle.store.specs.Kinds.{Kind, Sound};
ghost use Rattle.store.specs.Puts.{Asked};

use crate::put_refusal::PutRefusal;
use stamps::refusal::Refusal;
use versions::version::Version;

// A store that carries versions between sites in its own time. What it is at a moment is its state, of which
// its kind says what it means and what a put and a tick may leave; what it does besides when asked (a cache, a
// count) is no part of its state.
pub trait Store {
    // the make of the store: its states, what they mean, its steps
    ghost kind: { Kind };

    ghost state: { Self → kind.State };

    // The version shown at a site and key, or none; refused 14 where either is out of range. Kept numbers here, and a
    // `Spot` inside: they come from outside, and this is where what is out of range is refused.
    fn ask(&mut self, site: u32, key: u32) -> Result<Option<Version>, Refusal>
        ensures answers { Asked (kind.means (state self.old)) site key result }
        ensures stays { state self.new ≡ state self.old };

    // Whether the store shows the peaks everywhere.
    fn settled(&mut self) -> bool
        ensures answers { IsTrue result ↔ ((kind.means (state self.old)).wait ≡ 0) }
        ensures stays { state self.new ≡ state self.old };

    // Puts a version at a site; refused 14 where the site is out of range or the record is no version, else
    // with the bar if there is one.
    fn put(&mut self, site: u32, version: Version) -> Result<(), PutRefusal>
        ensures { kind.stored (state self.old) site version result (state self.new) };

    // One tick of the store's time.
    fn tick(&mut self)
        ensures { kind.ticked (state self.old) (state self.new) };

    // the make keeps the laws of every store
    ghost sound: { Sound kind };

    // and every store of the make is in a good state
    ghost good: { (s : Self) → kind.good (state s) };
}
