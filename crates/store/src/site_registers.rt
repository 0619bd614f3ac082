ghost use Rattle.std.specs.Prelude.{◌≡◌, length};
ghost use Rattle.stamps.specs.Numbers.{sites as site_count};

use crate::range::{SITE_PLACES, check_ask};
use crate::registers::Registers;
use crate::spot::Spot;
use causal::choose::stamp_of;
use stamps::below::Key;
use stamps::stamp::Stamp;
use versions::version::Version;

// Registers for each site: at each key a version of that key, or none.
#[derive(Clone, Copy)]
pub struct SiteRegisters {
    sites: [Registers; SITE_PLACES],
    ghost sized: { length sites ≡ site_count },
}

impl SiteRegisters {
    ghost use Rattle.std.specs.Prelude.{◌≡◌, ℕ, true, None};
    ghost use Rattle.causal.specs.Tables.{held_stamp};
    ghost use Rattle.store.specs.Holding.{registered_at};
    ghost use Rattle.store.specs.Meanings.{InAskRange, InPutRange};
    ghost use Rattle.store.specs.Registers.{is_placed, came_at, written_at};

    // Empty registers.
    pub fn new() -> SiteRegisters
        ensures { (s k : ℕ) → registered_at result s k ≡ None }
    {
        SiteRegisters {
            sites: [Registers::new(); SITE_PLACES],
        }
    }

    // What the register of a site and key holds; nothing stands out of range. Kept beside `at`: it takes any numbers.
    pub fn read(&self, site: u32, key: u32) -> Option<Version>
        ensures { result ≡ registered_at self.now site key }
    {
        let spot = check_ask(site, key).ok()?;
        *self.at(spot)
    }

    // The stamp in the register of a site and key; 0 for none. Kept for any numbers, with 0 where there is no register.
    pub fn stamp_at(&self, site: u32, key: u32) -> Stamp
        ensures { result.number ≡ held_stamp (registered_at self.now site key) }
    {
        stamp_of(&self.read(site, key))
    }

    // What the register of a spot holds.
    pub fn at(&self, spot: Spot) -> &Option<Version>
        ensures { result.now ≡ registered_at self.now spot.site spot.key }
    {
        self.sites[spot.site.place()].at(spot.key)
    }

    // Brings a version to the register of its key at a site, which takes it only if its stamp is higher. Kept a requires,
    // here and in `write`, as registers by key have it.
    pub fn take(&mut self, site: u32, version: &Version)
        requires { InPutRange site version.now }
        ensures { (s k : ℕ) → registered_at self.new s k ≡ came_at (registered_at self.old) site version.now s k }
    {
        let sites = &mut self.sites;
        sites[site as usize].take(version);
    }

    // Writes what the register of a site and key holds, whatever it held.
    pub fn write(&mut self, site: u32, key: u32, found: &Option<Version>)
        requires in_range { InAskRange site key }
        requires placed { is_placed key found.now ≡ true }
        ensures { (s k : ℕ) → registered_at self.new s k ≡ written_at (registered_at self.old) site key found.now s k }
    {
        let sites = &mut self.sites;
        if let Ok(key) = Key::try_from(key) {
            sites[site as usize].write(key, found);
        }
    }
}
