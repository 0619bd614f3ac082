// A bar, and the two entries that rest on it, carried between the sites over each make of store, tick by tick; then
// puts without a tick, until each make is barred.
#![tactic(auto)]

use crate::carrying::{carry, fill};
use crate::theorems::{of_cuts, of_stores};
use causal::cut::Cut;
use job::{BALANCE, CANTEEN, OFFICE, OLD_CARD, REPLACEMENT, post};
use poll::period::Period;
use poll::poll::Poll;
use replicas::line_times::LineTimes;
use replicas::replicas::Replicas;
use shared_log::log::Log;
use shared_log::strides::Strides;
use stamps::refusal::Refusal;
use stamps::site::site_of;
use stamps::value::Value;
use versions::version::Version;

mod carrying;
mod theorems;

fn main(rt: HostRuntime) -> anyhow::Result<()> {
    of_cuts();
    of_stores();
    let mut office = Cut::new();
    let barred = post(&mut office, OFFICE, OLD_CARD, Value::Barred)?.version;
    let replaced = post(&mut office, OFFICE, REPLACEMENT, Value::Replaced(4711))?.version;
    let balance = post(&mut office, OFFICE, BALANCE, Value::Amount(1250))?.version;
    carry_over_each(&rt, &[balance, replaced], &barred)?;
    fill_each(&rt, &barred)
}

// Carries the three entries from the office's site, the bar last, over each make of store.
fn carry_over_each(rt: &impl Print, before: &[Version], barred: &Version) -> anyhow::Result<()> {
    let site = site_of(OFFICE)?;
    println!(rt; "Replicas: the lines of site {site} take 3, 0 and 2 ticks to sites 0, 1 and 2.")?;
    carry(rt, &mut replicas()?, site, before, barred)?;
    println!(rt; "Log: sites 0 to 3 read 1, 2, 3 and 8 entries with a tick.")?;
    carry(rt, &mut log()?, site, before, barred)?;
    println!(rt; "Poll every 2 ticks over these replicas.")?;
    let mut polled = Poll::new(Period::new(2)?, replicas()?);
    carry(rt, &mut polled, site, before, barred)?;
    println!(rt; "Poll every 2 ticks over this log.")?;
    let mut polled = Poll::new(Period::new(2)?, log()?);
    carry(rt, &mut polled, site, before, barred)?;
    println!(rt; "Poll every 3 ticks over poll every 2 ticks over these replicas.")?;
    let lower = Poll::new(Period::new(2)?, replicas()?);
    let mut upper = Poll::new(Period::new(3)?, lower);
    carry(rt, &mut upper, site, before, barred)
}

// Puts without a tick until each make of store is barred.
fn fill_each(rt: &impl Print, barred: &Version) -> anyhow::Result<()> {
    let site = site_of(CANTEEN)?;
    println!(rt; "Without ticks, replicas with lines of some ticks:")?;
    let times = LineTimes::new([1, 1, 1, 1, 9, 1])?;
    fill(rt, &mut Replicas::new(times), site, barred)?;
    println!(rt; "Poll over them:")?;
    let mut polled = Poll::new(Period::new(1)?, Replicas::new(times));
    fill(rt, &mut polled, site, barred)?;
    println!(rt; "Log:")?;
    fill(rt, &mut log()?, site, barred)?;
    println!(rt; "Poll over poll over it:")?;
    let lower = Poll::new(Period::new(1)?, log()?);
    let mut upper = Poll::new(Period::new(1)?, lower);
    fill(rt, &mut upper, site, barred)
}

// Replicas whose lines take 2, 1, 3, 1, 0 and 2 ticks.
fn replicas() -> Result<Replicas, Refusal> {
    Ok(Replicas::new(LineTimes::new([2, 1, 3, 1, 0, 2])?))
}

// A log whose sites read 1, 2, 3 and 8 entries with a tick.
fn log() -> Result<Log, Refusal> {
    Ok(Log::new(Strides::new([1, 2, 3, 8])?))
}
