ghost use Rattle.shared_log.specs.Log.{log_kind};
ghost use Rattle.shared_log.specs.Reading.{LogLaw};
ghost use Rattle.shared_log.specs.States.{log_state};
ghost use Rattle.shared_log.specs.Logging.{log_sound, log_one, log_left};

use crate::log::Log;
use stamps::refusal::Refusal;
use store::exact::Exact;
use store::put_refusal::PutRefusal;
use store::range::{check_ask, check_put};
use store::store::Store;
use versions::version::Version;

// Kept in each store, though alike: the few lines of `ask` and `put`, which the trait asks of each.
impl Store for Log {
    ghost kind = { log_kind };

    ghost state = { log_state };

    ghost sound = { log_sound };

    ghost good = { λ l. l.good };

    fn ask(&mut self, site: u32, key: u32) -> Result<Option<Version>, Refusal> {
        let spot = check_ask(site, key)?;
        Ok(self.shown(spot))
    }

    fn settled(&mut self) -> bool {
        self.tail.is_empty()
    }

    fn put(&mut self, site: u32, version: Version) -> Result<(), PutRefusal> {
        check_put(site, &version)?;
        if let Some(bar) = self.bar() {
            return Err(PutRefusal::Barring(bar));
        }
        self.tail.push(version);
        Ok(())
    }

    fn tick(&mut self) {
        self.read_on();
    }
}

// Every step of the log has one outcome, and a refused put leaves the log as it was.
impl Exact for Log {
    ghost one_outcome = { log_one };

    ghost keeps = { log_left };
}

// Theorem: after any puts and ticks from new, base and tail are the accepted puts in order, each site has read as
// many as its stride gives, and shows of them the latest of each key. It has no code.
pub fn log_tells_the_puts()
    ensures { LogLaw }
{}
