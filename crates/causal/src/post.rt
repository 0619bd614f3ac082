ghost use Rattle.std.specs.Prelude.{◌≡◌, ℕ, ◌<◌, ◌≤◌, ◌↔◌, ◌&&◌, IsTrue, is_some, IfOk, Some, MatchResult};
ghost use Rattle.stamps.specs.KeySets.{has};
ghost use Rattle.stamps.specs.Numbers.{counter_limit};
ghost use Rattle.stamps.specs.declared.refusal.Refusal.TheVariants.{OutOfRange, CounterSpent};
ghost use Rattle.causal.specs.Tables.{with_version, NoStampFalls};
ghost use Rattle.causal.specs.Holding.{holding};
ghost use Rattle.causal.specs.Posting.{counter_after, next_counter, causes_of, row_of_post, Drafted, FitToEnter};

use crate::cut::Cut;
use crate::draft::Draft;
use stamps::keyset::KeySet;
use stamps::limits::{COUNTER_LIMIT, KEYS, PLACES, TERMINALS};
use stamps::refusal::Refusal;
use stamps::stamp::Stamp;
use stamps::value::Value;
use versions::join::{Join, join_all};
use versions::row::Row;
use versions::version::Version;

impl Cut {
    // Drafts a post from a sale's keys: its version and the number of its causes. Nothing changes. Refused
    // 14 where terminal, key or value is out of range, then 23, then 24. Kept four parameters: a post has no type of its
    // own before it is drafted.
    pub fn draft(
        &self,
        terminal: u32,
        key: u32,
        value: Value,
        sale: KeySet,
    ) -> Result<Draft, Refusal>
        ensures drafted { Drafted (holding self.now) terminal key value (has sale) result }
        ensures enters { IfOk result (λ d. FitToEnter (holding self.now) d.version) }
    {
        // Kept tests of numbers: the version and its stamp are made of them, and a terminal or key in range is put nowhere.
        if terminal >= TERMINALS || key >= KEYS || !value.in_range() {
            return Err(Refusal::OutOfRange);
        }
        let causes = self.causes_in(sale);
        let row = self.row_of(causes);
        let counter = self.next_counter()?;
        if !row.is_older(counter) {
            return Err(Refusal::CauseNotOlder);
        }
        let stamp = Stamp::make(counter, terminal)?;
        Ok(Draft {
            version: Version {
                key,
                value,
                stamp,
                row,
            },
            causes: causes.len(),
        })
    }

    // Enters a version, as that of an accepted post; refused 14, and nothing changed, where the record is no
    // version, is not covered by the face, or is not above the stamp at its key.
    pub fn enter(&mut self, version: &Version) -> Result<(), Refusal>
        ensures entered { MatchResult result
            (λ _. FitToEnter (holding self.old) version.now
            × ((k : ℕ) → holding self.new k ≡ with_version (holding self.old) version.now.key version.now k))
            (λ e. (e ≡ OutOfRange) × (FitToEnter (holding self.old) version.now → ⊥)
            × (self.new ≡ self.old)) }
        ensures no_stamp_falls { NoStampFalls (holding self.old) (holding self.new) }
    {
        if !self.may_enter(version) {
            return Err(Refusal::OutOfRange);
        }
        self.held.set(version);
        self.face.stamps[version.key as usize] = version.stamp;
        Ok(())
    }

    // Whether a record is a version, the face covers it, and it stands above the stamp at its key.
    #[tactic(auto, using(versions::proofs::Versioning::key_within))]
    fn may_enter(&self, version: &Version) -> bool
        ensures { IsTrue result ↔ FitToEnter (holding self.now) version.now }
    {
        version.is_version()
            && self.face.covers(&version.row)
            && version.stamp > self.face.stamps[version.key as usize]
    }

    // The counter of the next post: one more than the highest in the face, 1 for an empty cut; refused 23
    // above the limit.
    pub fn next_counter(&self) -> Result<u32, Refusal>
        ensures { MatchResult result
            (λ counter. (counter ≡ next_counter (holding self.now)) × (counter ≤ counter_limit))
            (λ e. (e ≡ CounterSpent) × (counter_limit < next_counter (holding self.now))) }
    {
        counter_after(&self.face.stamps)
    }

    // The keys of a sale at which the cut holds a version.
    fn causes_in(&self, sale: KeySet) -> KeySet
        ensures { (k : ℕ) → has result k ≡ (has sale k && is_some (holding self.now k)) }
    {
        sale.masked(KeySet::of(|key| self.held.at(key).is_some()))
    }

    // The joined reaches of the versions held at some keys.
    fn row_of(&self, causes: KeySet) -> Row
        ensures { result ≡ row_of_post (causes_of (holding self.now) (has causes)) }
    {
        let mut row = Row::zeros();
        for key in causes.keys() {
            if let Some(version) = self.held.at(key) {
                row = row.join(&version.reach());
            }
        }
        row
    }
}

// One more than the highest counter among the stamps of a row; refused 23 above the limit.
#[tactic(auto, using(crate::proofs::Drafting::joined_highest, stamps::proofs::Stamping::counter_fits))]
fn counter_after(stamps: &[Stamp; PLACES]) -> Result<u32, Refusal>
    ensures { MatchResult result
        (λ counter. (counter ≡ counter_after (record { stamps = stamps.entry.now })) × (counter ≤ counter_limit))
        (λ e. (e ≡ CounterSpent) × (counter_limit < counter_after (record { stamps = stamps.entry.now }))) }
{
    let highest = join_all(stamps);
    let counter = highest.counter() + 1;
    if counter > COUNTER_LIMIT {
        return Err(Refusal::CounterSpent);
    }
    Ok(counter)
}
