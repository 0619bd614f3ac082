ghost use Rattle.std.specs.Prelude.{◌≡◌};
ghost use Rattle.store.specs.Meanings.{New};
ghost use Rattle.replicas.specs.Arrivals.{ReplicasLaw};
ghost use Rattle.replicas.specs.Times.{times_of};
ghost use Rattle.replicas.specs.Replicas.{replicas_kind, replicas_mean, replicas_start};
ghost use Rattle.replicas.specs.States.{replicas_state};
ghost use Rattle.replicas.specs.Soundness.{replicas_sound, replicas_one, replicas_left};
ghost use Rattle.replicas.specs.Standing.{replicas_good};

use crate::line_times::LineTimes;
use crate::network::Network;
use crate::replicas::Replicas;
use stamps::refusal::Refusal;
use store::exact::Exact;
use store::put_refusal::PutRefusal;
use store::range::{check_ask, check_put};
use store::store::Store;
use versions::version::Version;

impl Replicas {
    // Replicas with nothing in the registers and nothing on its way.
    pub fn new(times: LineTimes) -> Replicas
        ensures start { replicas_state result ≡ replicas_start (times_of times) }
        ensures new { New (replicas_mean (replicas_state result)) }
    {
        Replicas {
            network: Network::new(),
            times,
        }
    }
}

// Kept in each store, though alike: the few lines of `ask` and `put`, which the trait asks of each.
impl Store for Replicas {
    ghost kind = { replicas_kind };

    ghost state = { replicas_state };

    ghost sound = { replicas_sound };

    ghost good = { replicas_good };

    fn ask(&mut self, site: u32, key: u32) -> Result<Option<Version>, Refusal> {
        let spot = check_ask(site, key)?;
        Ok(*self.network.registers.at(spot))
    }

    fn settled(&mut self) -> bool {
        self.network.deliveries.is_empty()
    }

    fn put(&mut self, site: u32, version: Version) -> Result<(), PutRefusal> {
        let (site, _) = check_put(site, &version)?;
        if let Some(bar) = self.network.deliveries.bar() {
            return Err(PutRefusal::Barring(bar));
        }
        self.network.put(&self.times, site, &version);
        Ok(())
    }

    fn tick(&mut self) {
        self.network.tick();
    }
}

// Every step of replicas has one outcome, and a refused put leaves them as they were.
impl Exact for Replicas {
    ghost one_outcome = { replicas_one };

    ghost keeps = { replicas_left };
}

// Theorem: after any puts and ticks from new, a site's register has the highest stamp of its key among what was
// put there or delivered there. It has no code.
pub fn registers_hold_the_highest()
    ensures { ReplicasLaw }
{}
