ghost use Rattle.shared_log.specs.Holding.{state_of};
ghost use Rattle.shared_log.specs.Log.{LogGood};

use crate::coming::{bring, latest};
use crate::limits::TAIL_LIMIT;
use crate::readers::Readers;
use crate::strides::Strides;
use stamps::below::Site;
use stamps::refusal::{Bar, Refusal};
use store::queue::Queue;
use store::registers::Registers;
use store::spot::Spot;
use versions::valid::ValidVersion;
use versions::version::Version;

// A base register for each key, a tail of versions, and for each site a position in the tail and a stride. No
// site has read past the end, and what all have read is in the base.
#[derive(Clone, Copy)]
pub struct Log {
    base: Registers,
    pub(crate) tail: Queue<Version, TAIL_LIMIT>,
    readers: Readers,
    ghost good: { LogGood (state_of base tail readers) },
}

impl Log {
    ghost use Rattle.std.specs.Prelude.{◌≡◌, take};
    ghost use Rattle.store.specs.Meanings.{New};
    ghost use Rattle.shared_log.specs.Holding.{stride_of};
    ghost use Rattle.shared_log.specs.Log.{log_start, log_means, after_tick, shown_at, tail_bar};
    ghost use Rattle.shared_log.specs.States.{log_state};

    // A log that holds nothing, with these strides.
    pub fn new(strides: Strides) -> Log
        ensures start { log_state result ≡ log_start (stride_of strides) }
        ensures new { New (log_means (log_state result)) }
    {
        let base = Registers::new();
        let tail = Queue::new(ValidVersion::filler().version());
        let readers = Readers::new(&strides);
        Log {
            base,
            tail,
            readers,
        }
    }

    // What is shown at a site and key.
    pub(crate) fn shown(&self, spot: Spot) -> Option<Version>
        ensures { result ≡ shown_at (log_state self.now) spot.site spot.key }
    {
        latest(&self.base, self.read_at(spot.site), spot.key)
    }

    // The versions of the tail that a site has read.
    fn read_at(&self, site: Site) -> &[Version]
        ensures { result.now ≡ take ((log_state self.now).position site) (log_state self.now).tail }
    {
        &self.tail.as_slice()[..self.readers.at(site)]
    }

    // What a put would now be refused with: 33 when the tail is full. Kept apart from the replicas' bar: another
    // refusal at another limit, in one test each.
    pub(crate) fn bar(&self) -> Option<Bar>
        ensures { result ≡ tail_bar (log_state self.now).tail }
    {
        let full = self.tail.len() >= TAIL_LIMIT;
        full.then(|| Bar::new(Refusal::TailFull))
    }

    // Moves each position on, and brings what all have read to the base.
    pub(crate) fn read_on(&mut self)
        ensures { log_state self.new ≡ after_tick (log_state self.old) }
    {
        let end = self.tail.len();
        self.readers.move_on(end);
        let read_by_all = self.readers.lowest();
        bring(&self.tail.as_slice()[..read_by_all], &mut self.base);
        self.tail.drop_first(read_by_all);
        self.readers.lower(read_by_all);
    }
}
