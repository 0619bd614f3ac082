ghost use Rattle.std.specs.Prelude.{◌≡◌};
ghost use Rattle.causal.specs.Held.{held_in};
ghost use Rattle.causal.specs.Tables.{face_of, Causal};

use crate::table::VersionTable;
use stamps::below::Key;
use stamps::refusal::Refusal;
use versions::row::Row;
use versions::version::Version;

// What a terminal holds: for each key one version of that key, or none, and nothing ahead of what it rests
// on. No cut can exist that is not causal: the ghost fields are owed wherever a cut is made or changed.
#[derive(Clone, Copy)]
pub struct Cut {
    pub(crate) held: VersionTable,
    // The stamp of what is held at each key, 0 for none. Kept beside what is held: choosing compares
    // stamps without walking through whole versions.
    pub(crate) face: Row,
    ghost faced: { face ≡ face_of (held_in held) },
    ghost causal: { Causal (held_in held) },
}

impl Cut {
    ghost use Rattle.std.specs.Prelude.{◌≡◌, ℕ, ◌<◌, ◌≤◌, None, MatchResult};
    ghost use Rattle.stamps.specs.Numbers.{keys};
    ghost use Rattle.stamps.specs.declared.refusal.Refusal.TheVariants.{OutOfRange};
    ghost use Rattle.causal.specs.Holding.{holding};
    ghost use Rattle.causal.specs.Tables.{face_of};

    // The empty cut.
    pub fn new() -> Cut
        ensures { (k : ℕ) → holding result k ≡ None }
    {
        Cut {
            held: VersionTable::new(),
            face: Row::zeros(),
        }
    }

    // What the cut holds at a key; a key out of range is refused 14.
    pub fn read(&self, key: u32) -> Result<Option<Version>, Refusal>
        ensures { MatchResult result
            (λ found. (key < keys) × (found ≡ holding self.now key))
            (λ e. (e ≡ OutOfRange) × (keys ≤ key)) }
    {
        Ok(*self.held.at(Key::try_from(key)?))
    }

    // The row of the stamps that the cut holds.
    pub fn face(&self) -> Row
        ensures { result ≡ face_of (holding self.now) }
    {
        self.face
    }
}
