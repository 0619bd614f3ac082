ghost use Rattle.std.specs.Prelude.{◌≡◌, ℕ, true};
ghost use Rattle.store.specs.Holding.{registered};
ghost use Rattle.store.specs.Registers.{came_all};
ghost use Rattle.shared_log.specs.Coming.{taken_at};
ghost use Rattle.shared_log.specs.Log.{are_versions};

use causal::choose::stamp_of;
use stamps::below::Key;
use store::registers::Registers;
use versions::version::Version;

// Brings versions to registers, in order. Kept a requires: the tail holds plain records, and the log's good state tells
// that they are versions.
#[tactic(auto, using(crate::specs::Coming::came_more))]
pub(crate) fn bring(versions: &[Version], registers: &mut Registers)
    requires { are_versions versions.now ≡ true }
    ensures { (k : ℕ) → registered registers.new k ≡ came_all (registered registers.old) versions.now k }
{
    for version in versions {
        registers.take(version);
    }
}

// What the register of a key would hold once the versions seen had come.
#[tactic(auto, using(crate::specs::Coming::came_more))]
pub(crate) fn latest(registers: &Registers, seen: &[Version], key: Key) -> Option<Version>
    ensures { result ≡ came_all (registered registers.now) seen.now key }
{
    let mut held = *registers.at(key);
    for version in seen {
        take(key, &mut held, version);
    }
    held
}

// Puts a version in place of what the register of a key holds, if it is of the key and its stamp is higher.
fn take(key: Key, held: &mut Option<Version>, version: &Version)
    ensures { held.new ≡ taken_at key held.old version.now }
{
    if version.key == key.number() && stamp_of(held) < version.stamp {
        *held = Some(*version);
    }
}
