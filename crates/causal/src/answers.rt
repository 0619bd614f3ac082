use crate::table::VersionTable;
use stamps::refusal::Refusal;
use versions::version::Version;

// What a store answered at some keys: at each key a version of that key, or none.
#[derive(Clone, Copy)]
pub struct Answers {
    pub(crate) given: VersionTable,
}

impl Answers {
    ghost use Rattle.std.specs.Prelude.{◌≡◌, ℕ, true, None, MatchResult};
    ghost use Rattle.versions.specs.Versions.{is_version};
    ghost use Rattle.stamps.specs.declared.refusal.Refusal.TheVariants.{OutOfRange};
    ghost use Rattle.causal.specs.Tables.{with_version};
    ghost use Rattle.causal.specs.Holding.{answered};

    // No answers.
    pub fn new() -> Answers
        ensures { (k : ℕ) → answered result k ≡ None }
    {
        Answers {
            given: VersionTable::new(),
        }
    }

    // Notes the answer at a key, in place of an earlier one there; a record that is no version of that key
    // is refused 14, and the answers stay.
    pub fn note(&mut self, key: u32, version: &Version) -> Result<(), Refusal>
        ensures { MatchResult result
            (λ _. (is_version version.now ≡ true) × (version.now.key ≡ key)
            × ((k : ℕ) → answered self.new k ≡ with_version (answered self.old) key version.now k))
            (λ e. (e ≡ OutOfRange) × ((is_version version.now ≡ true) × (version.now.key ≡ key) → ⊥)
            × (self.new ≡ self.old)) }
    {
        // Kept a test of the record, here and where a post enters: tested where it lies, it is copied once and only where
        // it is taken.
        if version.key != key || !version.is_version() {
            return Err(Refusal::OutOfRange);
        }
        self.given.set(version);
        Ok(())
    }
}
