ghost use Rattle.std.specs.Prelude.{◌≡◌};
ghost use Rattle.versions.specs.Versions.{filler};
ghost use Rattle.replicas.specs.Replicas.{lowered, has_come};

use versions::valid::ValidVersion;
use versions::version::Version;

// A version on its way to a site, with the ticks left until it comes. Kept a plain record, of which the replicas' good
// state says the rest: where a store holds an array of what has an impl Model, the kit proves no caller that takes the
// store by `?`.
#[derive(Clone, Copy)]
pub(crate) struct Delivery {
    pub(crate) version: Version,
    pub(crate) site: u32,
    pub(crate) left: u32,
}

impl Delivery {
    // A delivery that stands in places that are not in use.
    pub(crate) fn filler() -> Delivery
        ensures { result ≡ record { version = filler; site = 0; left = 0 } }
    {
        Delivery {
            version: ValidVersion::filler().version(),
            site: 0,
            left: 0,
        }
    }

    // One tick less.
    pub(crate) fn tick(&mut self)
        ensures { self.new ≡ lowered self.old }
    {
        self.left = self.left.saturating_sub(1);
    }

    // Whether no tick is left.
    pub(crate) fn has_come(&self) -> bool
        ensures { result ≡ has_come self.now }
    {
        self.left == 0
    }
}
