// One job from start to finish: a lost card is barred, replaced and its balance moved at the office; at the
// canteen the balance arrives first and is withheld until the bar behind it has come.
#![tactic(auto)]

ghost use Rattle.std.specs.Prelude.{◌≡◌, ℕ, IfOk};
ghost use Rattle.causal.specs.Holding.{holding};
ghost use Rattle.causal.specs.Tables.{with_version, NoStampFalls};

use causal::answers::Answers;
use causal::cut::Cut;
use causal::draft::Draft;
use job::{BALANCE, CANTEEN, KEYS_OF_JOB, OFFICE, OLD_CARD, REPLACEMENT};
use stamps::stamp::Stamp;
use stamps::value::Value;
use versions::version::Version;

fn main(rt: HostRuntime) -> anyhow::Result<()> {
    let [barred, replaced, balance] = at_the_office(&rt)?;
    at_the_canteen(&rt, &barred, &replaced, &balance)
}

// The lost card is barred and replaced, and its balance moved.
fn at_the_office(rt: &impl Print) -> anyhow::Result<[Version; 3]> {
    println!(rt; "At the office, terminal {OFFICE}, a card is lost.")?;
    let mut cut = Cut::new();
    Ok([
        post(rt, &mut cut, OFFICE, OLD_CARD, Value::Barred)?,
        post(rt, &mut cut, OFFICE, REPLACEMENT, Value::Replaced(4711))?,
        post(rt, &mut cut, OFFICE, BALANCE, Value::Amount(1250))?,
    ])
}

// The balance comes first, the rest later, and a sale rests on all of it.
fn at_the_canteen(
    rt: &impl Print,
    barred: &Version,
    replaced: &Version,
    balance: &Version,
) -> anyhow::Result<()> {
    println!(rt;
        "At the canteen, terminal {CANTEEN}, the balance has come; the rest is on its way."
    )?;
    let mut cut = Cut::new();
    let mut answers = Answers::new();
    answers.note(BALANCE, balance)?;
    choose(rt, &mut cut, &answers)?;

    println!(rt; "The replacement and the bar have come too.")?;
    answers.note(REPLACEMENT, replaced)?;
    answers.note(OLD_CARD, barred)?;
    choose(rt, &mut cut, &answers)?;

    println!(rt; "The cashier, who has looked at all three keys, sells for 3.20.")?;
    post(rt, &mut cut, CANTEEN, BALANCE, Value::Amount(930))?;
    show(rt, &cut)
}

// Posts a value, and tells what the post is and which stamps it rests on.
fn post(
    rt: &impl Print,
    cut: &mut Cut,
    terminal: u32,
    key: u32,
    value: Value,
) -> anyhow::Result<Version>
    ensures { IfOk result (λ version. (k : ℕ) → holding cut.new k ≡ with_version (holding cut.old) version.key version k) }
{
    let Draft { version, causes } = job::post(cut, terminal, key, value)?;
    let Version { stamp, row, .. } = version;
    println!(rt;
        "  posts key {key}: {value}, stamp {} (counter {}, terminal {terminal}), causes {causes}",
        stamp.number,
        stamp.counter()
    )?;
    // Kept a test against none: by the rules a row has 0 where it rests on no stamp.
    for (key, stamp) in row.stamps.iter().enumerate() {
        if *stamp != Stamp::NONE {
            println!(rt; "    resting on stamp {} at key {key}", stamp.number)?;
        }
    }
    Ok(version)
}

// Chooses, and tells the outcome.
fn choose(rt: &impl Print, cut: &mut Cut, answers: &Answers) -> anyhow::Result<()>
    ensures { NoStampFalls (holding cut.old) (holding cut.new) }
{
    let (moved, withheld) = cut.choose(answers);
    println!(rt; "  moved {moved}, withheld {withheld}")?;
    show(rt, cut)
}

// What a cut shows at the keys of the job.
fn show(rt: &impl Print, cut: &Cut) -> anyhow::Result<()> {
    for key in KEYS_OF_JOB {
        match cut.read(key)? {
            Some(version) => println!(rt; "  key {key} shows {}", version.value)?,
            None => println!(rt; "  key {key} shows nothing")?,
        }
    }
    Ok(())
}
