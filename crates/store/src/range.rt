ghost use Rattle.std.specs.Prelude.{◌≡◌, IfOk, MatchResult};
ghost use Rattle.stamps.specs.declared.refusal.Refusal.TheVariants.{OutOfRange};
ghost use Rattle.store.specs.Meanings.{InAskRange, InPutRange};
ghost use Rattle.store.specs.declared.put_refusal.PutRefusal.TheVariants.{Unfit};

use crate::put_refusal::PutRefusal;
use crate::spot::Spot;
use stamps::below::{Key, Site};
use stamps::limits::SITES;
use stamps::refusal::Refusal;
use versions::valid::ValidVersion;
use versions::version::Version;

// Registers by site have one place for each site.
pub const SITE_PLACES: usize = SITES as usize;

// The spot of a site and a key; refused 14 where either is out of range. Kept a function: a
// TryFrom of two numbers would not say which is which.
pub fn check_ask(site: u32, key: u32) -> Result<Spot, Refusal>
    ensures range { MatchResult result (λ _. InAskRange site key) (λ e. (e ≡ OutOfRange) × (InAskRange site key → ⊥)) }
    ensures spot { IfOk result (λ spot. (spot.site ≡ site) × (spot.key ≡ key)) }
{
    Ok(Spot {
        site: Site::try_from(site)?,
        key: Key::try_from(key)?,
    })
}

// The site and the version of a put; refused 14 where the site is out of range or the record is no version. Kept a
// function, as the one above.
pub fn check_put(site: u32, version: &Version) -> Result<(Site, ValidVersion), PutRefusal>
    ensures range { MatchResult result
        (λ _. InPutRange site version.now)
        (λ e. (e ≡ Unfit) × (InPutRange site version.now → ⊥)) }
    ensures put { IfOk result (λ put. (put.0 ≡ site) × (put.1 ≡ version.now)) }
{
    let site = Site::try_from(site).map_err(|_| PutRefusal::Unfit)?;
    let version = ValidVersion::try_from(*version).map_err(|_| PutRefusal::Unfit)?;
    Ok((site, version))
}
