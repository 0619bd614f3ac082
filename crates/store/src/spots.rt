ghost use Rattle.std.specs.Prelude.{◌≡◌, ◌+◌, ◌-◌, ◌*◌, ◌≤◌, MatchOption};
ghost use Rattle.std.specs.Iterator.{at_most};
ghost use Rattle.stamps.specs.Numbers.{keys, sites};
ghost use Rattle.store.specs.Meanings.{InAskRange};

use crate::spot::Spot;
use stamps::below::{Key, Site};
use stamps::limits::KEYS;

impl Spot {
    // All spots: a site's, with keys upward, then those of the next site.
    pub fn all() -> Spots
        ensures { result.next ≡ 0 }
    {
        Spots { next: 0 }
    }
}

// Gives the spots in order, from the one of number `next`: its site's number times 32, plus its key's.
#[derive(Clone, Copy)]
pub struct Spots {
    next: u32,
}

impl Iterator for Spots {
    type Item = Spot;

    ghost next_gives = { λ s found t. MatchOption found
        ((sites * keys ≤ s.next) × (t.next ≡ s.next))
        (λ spot. InAskRange spot.site spot.key × (s.next ≡ spot.site * keys + spot.key) × (t.next ≡ s.next + 1)) };

    ghost remaining = { λ s. at_most (sites * keys - s.next) };

    fn next(&mut self) -> Option<Spot> {
        let spot = Spot {
            site: Site::try_from(self.next / KEYS).ok()?,
            key: Key::try_from(self.next % KEYS).ok()?,
        };
        self.next += 1;
        Some(spot)
    }
}
