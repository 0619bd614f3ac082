ghost use Rattle.std.specs.Prelude.{◌≡◌, ◌<◌, true, false, MatchResult};
ghost use Rattle.stamps.specs.Numbers.{keys};
ghost use Rattle.stamps.specs.declared.refusal.Refusal.TheVariants.{OutOfRange};
ghost use Rattle.versions.specs.Versions.{is_version, filler};

use crate::row::Row;
use crate::version::Version;
use stamps::below::Key;
use stamps::limits::FACTOR;
use stamps::refusal::Refusal;
use stamps::stamp::Stamp;
use stamps::value::Value;
use std::marker::Model;

// A record that is a version. Clauses see the version.
#[derive(Clone, Copy)]
pub struct ValidVersion {
    version: Version,
}

impl Model for ValidVersion {
    ghost use Rattle.std.specs.Prelude.{◌≡◌, true};
    ghost use Rattle.versions.specs.declared.version.Version.{Version};

    ghost Value = { Version };

    ghost use Rattle.versions.specs.Versions.{is_version};

    ghost view = { λ v. v.version };

    ghost invariant = { λ v. is_version v.version ≡ true };

    ghost inverse = { λ v. record { version = v } };
}

// A record that is no version is refused 14.
impl TryFrom<Version> for ValidVersion {
    type Error = Refusal;

    ghost try_from_gives = { λ version answer. MatchResult answer
        (λ valid. (is_version version ≡ true) × (valid ≡ version))
        (λ e. (e ≡ OutOfRange) × (is_version version ≡ false)) };

    fn try_from(version: Version) -> Result<ValidVersion, Refusal> {
        if !version.is_version() {
            return Err(Refusal::OutOfRange);
        }
        Ok(ValidVersion { version })
    }
}

impl ValidVersion {
    // A version that stands in places that are not in use: key 0, free, of the lowest stamp, resting on nothing.
    pub fn filler() -> ValidVersion
        ensures { result ≡ filler }
    {
        ValidVersion {
            version: Version {
                key: 0,
                value: Value::Free,
                stamp: Stamp { number: FACTOR },
                row: Row::zeros(),
            },
        }
    }

    // The version itself.
    pub fn version(&self) -> Version
        ensures value { result ≡ self.now }
        ensures valid { is_version self.now ≡ true }
    {
        self.version
    }

    // Its key.
    #[tactic(auto, unfolding(crate::specs::Versions::is_version))]
    pub fn key(&self) -> Key
        ensures { result ≡ self.now.key }
    {
        Key::try_from(self.version.key).unwrap()
    }

    // The place of its key in a table. Kept beside `key`: it is for whoever keeps versions in an array by their keys.
    #[tactic(auto, unfolding(crate::specs::Versions::is_version))]
    pub fn place(&self) -> usize
        ensures place { result ≡ self.now.key }
        ensures below { self.now.key < keys }
    {
        self.version.key as usize
    }
}
