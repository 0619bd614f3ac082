// The job that the programs tell: at the office a lost card is barred and replaced, and its balance moved; then
// the canteen sells to the new one.
#![tactic(auto)]

ghost use Rattle.std.specs.Prelude.{◌≡◌, ℕ, MatchResult};
ghost use Rattle.stamps.specs.KeySets.{has};
ghost use Rattle.causal.specs.Holding.{holding};
ghost use Rattle.causal.specs.Posting.{Drafted};
ghost use Rattle.causal.specs.Tables.{with_version};
ghost use Rattle.job.specs.Sales.{is_of_job};

use causal::cut::Cut;
use causal::draft::Draft;
use stamps::keyset::KeySet;
use stamps::refusal::Refusal;
use stamps::value::Value;

// The terminal at which the card is reported lost.
pub const OFFICE: u32 = 3;

// The terminal at which the balance is spent.
pub const CANTEEN: u32 = 0;

// The key that says whether the old card is barred.
pub const OLD_CARD: u32 = 5;

// The key that says which card replaces it.
pub const REPLACEMENT: u32 = 6;

// The key of the balance.
pub const BALANCE: u32 = 7;

// The keys of the job.
pub const KEYS_OF_JOB: [u32; 3] = [OLD_CARD, REPLACEMENT, BALANCE];

// Posts a value after a look at all keys of the job: drafts the post and enters it. Refused as the draft is, and
// the cut stays.
pub fn post(cut: &mut Cut, terminal: u32, key: u32, value: Value) -> Result<Draft, Refusal>
    ensures drafted { Drafted (holding cut.old) terminal key value is_of_job result }
    ensures entered { MatchResult result
        (λ d. (k : ℕ) → holding cut.new k ≡ with_version (holding cut.old) d.version.key d.version k)
        (λ _. cut.new ≡ cut.old) }
{
    let draft = cut.draft(terminal, key, value, keys_of_job())?;
    cut.enter(&draft.version)?;
    Ok(draft)
}

// The set of the job's keys.
fn keys_of_job() -> KeySet
    ensures { has result ≡ is_of_job }
{
    KeySet::of(|key| KEYS_OF_JOB.contains(&key.number()))
}
