use causal::table::VersionTable;
use stamps::below::Key;
use versions::version::Version;

// A register for each key: a version of that key, or none.
#[derive(Clone, Copy)]
pub struct Registers {
    held: VersionTable,
}

impl Registers {
    ghost use Rattle.std.specs.Prelude.{◌≡◌, ℕ, true, None};
    ghost use Rattle.versions.specs.Versions.{is_version};
    ghost use Rattle.store.specs.Holding.{registered};
    ghost use Rattle.store.specs.Registers.{is_placed, came_to, written_to};

    // Empty registers.
    pub fn new() -> Registers
        ensures { (k : ℕ) → registered result k ≡ None }
    {
        Registers {
            held: VersionTable::new(),
        }
    }

    // What the register of a key holds; nothing stands at a key out of range. Kept beside `at`: it takes any number.
    pub fn read(&self, key: u32) -> Option<Version>
        ensures { result ≡ registered self.now key }
    {
        *self.at(Key::try_from(key).ok()?)
    }

    // What the register of a key holds.
    pub fn at(&self, key: Key) -> &Option<Version>
        ensures { result.now ≡ registered self.now key }
    {
        self.held.at(key)
    }

    // Brings a version to the register of its key, which takes it only if its stamp is higher. Kept a requires, and a
    // plain record: a store of anyone's holds versions as it likes.
    #[tactic(auto, unfolding(versions::specs::Versions::is_version))]
    pub fn take(&mut self, version: &Version)
        requires { is_version version.now ≡ true }
        ensures { (k : ℕ) → registered self.new k ≡ came_to (registered self.old) version.now k }
    {
        if let Ok(key) = Key::try_from(version.key) {
            if self.held.stamp_at(key) < version.stamp {
                self.held.set(version);
            }
        }
    }

    // Writes what the register of a key holds, whatever it held.
    pub fn write(&mut self, key: Key, found: &Option<Version>)
        requires placed { is_placed key found.now ≡ true }
        ensures { (k : ℕ) → registered self.new k ≡ written_to (registered self.old) key found.now k }
    {
        self.held.write(key, found);
    }
}
