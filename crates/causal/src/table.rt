ghost use Rattle.std.specs.Prelude.{◌≡◌, length};
ghost use Rattle.stamps.specs.Numbers.{keys};
ghost use Rattle.causal.specs.Tables.{table_of, HoldsVersions, Keyed};

use crate::choose::stamp_of;
use stamps::below::Key;
use stamps::keyset::KeySet;
use stamps::limits::PLACES;
use stamps::stamp::Stamp;
use std::array;
use versions::row::Row;
use versions::valid::ValidVersion;
use versions::version::Version;

// For each key a version of that key, or none.
#[derive(Clone, Copy)]
pub struct VersionTable {
    places: [Option<Version>; PLACES],
    ghost sized: { length places ≡ keys },
    ghost versions: { HoldsVersions (table_of places) },
    ghost keyed: { Keyed (table_of places) },
}

impl VersionTable {
    ghost use Rattle.std.specs.Prelude.{◌≡◌, ℕ, true, if◌then◌else◌, None, ◌==◌};
    ghost use Rattle.stamps.specs.KeySets.{has};
    ghost use Rattle.versions.specs.Versions.{is_version};
    ghost use Rattle.causal.specs.Choosing.{put_in};
    ghost use Rattle.causal.specs.Held.{held_in};
    ghost use Rattle.causal.specs.Tables.{face_of, held_stamp, with_version, IsPlaced};

    // The table with nothing in it.
    pub fn new() -> VersionTable
        ensures { (k : ℕ) → held_in result k ≡ None }
    {
        VersionTable {
            places: [None; PLACES],
        }
    }

    // What stands at a key.
    pub fn at(&self, key: Key) -> &Option<Version>
        ensures { result.now ≡ held_in self.now key }
    {
        &self.places[key.place()]
    }

    // The stamp of what stands at a key; 0 for none.
    pub fn stamp_at(&self, key: Key) -> Stamp
        ensures { result.number ≡ held_stamp (held_in self.now key) }
    {
        stamp_of(self.at(key))
    }

    // The row of the stamps.
    pub fn face(&self) -> Row
        ensures { result ≡ face_of (held_in self.now) }
    {
        Row {
            stamps: array::from_fn(|k| stamp_of(&self.places[k])),
        }
    }

    // Puts a version in at its key, in place of what stood there. Kept a requires, beside `put`: one who has tested a
    // record, or holds it as tested, need not copy it into the type that carries the fact.
    #[tactic(auto, unfolding(versions::specs::Versions::is_version))]
    pub fn set(&mut self, version: &Version)
        requires { is_version version.now ≡ true }
        ensures { (k : ℕ) → held_in self.new k ≡ with_version (held_in self.old) version.now.key version.now k }
    {
        self.places[version.key as usize] = Some(*version);
    }

    // Puts a version in at its key, in place of what stood there.
    pub fn put(&mut self, version: &ValidVersion)
        ensures { (k : ℕ) → held_in self.new k ≡ with_version (held_in self.old) version.now.key version.now k }
    {
        self.set(&version.version());
    }

    // Writes what stands at a key: a version of that key, or none. Kept a requires, here and in the registers above: of
    // its makers `put_some_of` has it of the other table, and poll's copying by the laws of the store below; a type would
    // say the key twice.
    pub fn write(&mut self, key: Key, found: &Option<Version>)
        requires placed { IsPlaced key found.now }
        ensures { (k : ℕ) → held_in self.new k ≡ (if k == key then found.now else held_in self.old k) }
    {
        self.places[key.place()] = *found;
    }

    // The table with what another has at some keys.
    pub fn with_some_of(&self, other: &VersionTable, chosen: KeySet) -> VersionTable
        ensures { (k : ℕ) → held_in result k ≡ put_in (held_in self.now) (held_in other.now) (has chosen) k }
    {
        let mut table = *self;
        table.put_some_of(other, chosen);
        table
    }

    // Puts in what another table has at some keys.
    pub(crate) fn put_some_of(&mut self, other: &VersionTable, chosen: KeySet)
        ensures { (k : ℕ) → held_in self.new k ≡ put_in (held_in self.old) (held_in other.now) (has chosen) k }
    {
        for key in chosen.keys() {
            self.write(key, other.at(key));
        }
    }
}
