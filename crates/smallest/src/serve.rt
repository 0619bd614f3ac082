ghost use Rattle.std.specs.Prelude.{◌≡◌, ℕ, None};
ghost use Rattle.store.specs.Meanings.{New};
ghost use Rattle.smallest.specs.Smallest.{registers_mean, smallest_kind, smallest_state};
ghost use Rattle.smallest.specs.Smallness.{smallest_sound, smallest_good, smallest_one, smallest_left};

use crate::smallest::Smallest;
use stamps::refusal::Refusal;
use store::exact::Exact;
use store::put_refusal::PutRefusal;
use store::range::{check_ask, check_put};
use store::registers::Registers;
use store::store::Store;
use versions::version::Version;

impl Smallest {
    // A store that holds nothing.
    pub fn new() -> Smallest
        ensures empty { (k : ℕ) → smallest_state result k ≡ None }
        ensures new { New (registers_mean (smallest_state result)) }
    {
        let registers = Registers::new();
        Smallest { registers }
    }
}

// Kept in each store, though alike: the few lines of `ask` and `put`, which the trait asks of each.
impl Store for Smallest {
    ghost kind = { smallest_kind };

    ghost state = { smallest_state };

    ghost sound = { smallest_sound };

    ghost good = { smallest_good };

    fn ask(&mut self, site: u32, key: u32) -> Result<Option<Version>, Refusal> {
        let spot = check_ask(site, key)?;
        Ok(*self.registers.at(spot.key))
    }

    fn settled(&mut self) -> bool {
        true
    }

    fn put(&mut self, site: u32, version: Version) -> Result<(), PutRefusal> {
        check_put(site, &version)?;
        self.registers.take(&version);
        Ok(())
    }

    fn tick(&mut self) {}
}

// Every step of the smallest store has one outcome, and a refused put leaves the registers as they were.
impl Exact for Smallest {
    ghost one_outcome = { smallest_one };

    ghost keeps = { smallest_left };
}
