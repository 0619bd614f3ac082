// How versions travel between the sites over a store, whatever its make.
ghost use Rattle.std.specs.Prelude.{◌≡◌, ℕ, ◌<◌, IsSome, OnOk};
ghost use Rattle.stamps.specs.Numbers.{keys};
ghost use Rattle.store.specs.Meanings.{InPutRange};
ghost use Rattle.carrying.specs.Carried.{ShownEverywhere};

use anyhow::bail;
use stamps::limits::SITES;
use store::store::Store;
use versions::version::Version;

// No store here takes longer to settle.
const PATIENCE: u32 = 40;

// No store here takes more puts without a tick.
const PUTS: u32 = 100;

// Puts versions at a site, ticks until the store is settled, and tells after each tick which sites show the last.
pub fn carry<S: Store>(
    rt: &impl Print,
    store: &mut S,
    site: u32,
    before: &[Version],
    version: &Version,
) -> anyhow::Result<()>
    ensures settled { OnOk result ((S.Store.kind.means (S.Store.state store.new)).wait ≡ 0) }
    ensures carried { OnOk result (ShownEverywhere (S.Store.kind.means (S.Store.state store.new)) version.now) }
{
    for other in before {
        store.put(site, *other)?;
    }
    store.put(site, *version)?;
    print!(rt; "  put: ")?;
    tell_sites(rt, store, version)?;
    settle(rt, store, version)
}

// Ticks until the store is settled, and tells after each tick which sites show a version.
fn settle<S: Store>(rt: &impl Print, store: &mut S, version: &Version) -> anyhow::Result<()>
    ensures settled { OnOk result ((S.Store.kind.means (S.Store.state store.new)).wait ≡ 0) }
    ensures peaks_hold { (key : ℕ) → key < keys
        → (S.Store.kind.means (S.Store.state store.new)).peak key ≡ (S.Store.kind.means (S.Store.state store.old)).peak key }
{
    // Kept a range: it counts ticks, and indexes nothing.
    for tick in 1..PATIENCE {
        if store.settled() {
            println!(rt; "  settled")?;
            return Ok(());
        }
        store.tick();
        print!(rt; "  tick {tick}: ")?;
        tell_sites(rt, store, version)?;
    }
    bail!("a store has not settled")
}

// Puts a version again and again without a tick, and tells how often it was accepted and how it was refused then.
pub fn fill<S: Store>(
    rt: &impl Print,
    store: &mut S,
    site: u32,
    version: &Version,
) -> anyhow::Result<()>
    ensures { OnOk result (InPutRange site version.now → IsSome (S.Store.kind.means (S.Store.state store.new)).bar) }
{
    // Kept a range: the count is printed, and indexes nothing.
    for count in 0..PUTS {
        if let Err(refusal) = store.put(site, *version) {
            println!(rt; "  {count} puts accepted, then {refusal}")?;
            return Ok(());
        }
    }
    bail!("a store took every put")
}

// The sites that show a version's stamp at its key.
fn tell_sites<S: Store>(rt: &impl Print, store: &mut S, version: &Version) -> anyhow::Result<()>
    ensures { S.Store.state store.new ≡ S.Store.state store.old }
{
    print!(rt; "the bar is shown at")?;
    // Kept a flag: that no site shows it is known only when all have been asked.
    let mut shown = false;
    // Kept a range: a store is asked by numbers, and a `Site` would be turned back into one at once.
    for site in 0..SITES {
        let found = store.ask(site, version.key)?;
        if found.is_some_and(|found| found.stamp == version.stamp) {
            print!(rt; " {site}")?;
            shown = true;
        }
    }
    if !shown {
        print!(rt; " no site")?;
    }
    println!(rt; "")?;
    Ok(())
}
