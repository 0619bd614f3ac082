// Callers that take each make of store out of a Result by `?`, alone and below a poll: that they are proved is the point of
// them, since the kit's proof of such a caller depends on what a store's arrays hold.
use poll::period::Period;
use poll::poll::Poll;
use replicas::line_times::LineTimes;
use replicas::replicas::Replicas;
use shared_log::log::Log;
use shared_log::strides::Strides;
use stamps::limits::FACTOR;
use stamps::refusal::Refusal;
use stamps::stamp::Stamp;
use stamps::value::Value;
use store::store::Store;
use versions::row::Row;
use versions::version::Version;

// No store here waits longer.
const PATIENCE: u32 = 8;

// Whether a store takes a version at a site, and is settled some ticks later but not at once.
fn carries<S: Store>(store: &mut S, site: u32) -> bool {
    let version = Version {
        key: 5,
        value: Value::Barred,
        stamp: Stamp { number: FACTOR },
        row: Row::zeros(),
    };
    let taken = store.put(site, version).is_ok();
    let waits = !store.settled();
    for _ in 0..PATIENCE {
        store.tick();
    }
    taken && waits && store.settled()
}

// Replicas whose lines take 2, 1, 3, 1, 0 and 2 ticks.
fn replicas() -> Result<Replicas, Refusal> {
    Ok(Replicas::new(LineTimes::new([2, 1, 3, 1, 0, 2])?))
}

// A log whose sites read 1, 2, 3 and 8 entries with a tick.
fn log() -> Result<Log, Refusal> {
    Ok(Log::new(Strides::new([1, 2, 3, 8])?))
}

fn over_replicas(site: u32) -> Result<bool, Refusal> {
    let mut store = replicas()?;
    Ok(carries(&mut store, site))
}

fn over_the_log(site: u32) -> Result<bool, Refusal> {
    Ok(carries(&mut log()?, site))
}

fn over_polled_replicas(ticks: u32, site: u32) -> Result<bool, Refusal> {
    let mut store = Poll::new(Period::new(ticks)?, replicas()?);
    Ok(carries(&mut store, site))
}

fn over_the_polled_log(ticks: u32, site: u32) -> Result<bool, Refusal> {
    let period = Period::new(ticks)?;
    let mut store = Poll::new(period, Poll::new(period, log()?));
    Ok(carries(&mut store, site))
}

#[test]
fn every_make_of_store_is_taken_out_of_a_result(rt: HostRuntime) {
    assert!(rt; over_replicas(3) == Ok(true));
    assert!(rt; over_the_log(3) == Ok(true));
    assert!(rt; over_replicas(4) == Ok(false));
    assert!(rt; over_the_log(4) == Ok(false));
    assert!(rt; over_polled_replicas(2, 3) == Ok(true));
    assert!(rt; over_the_polled_log(2, 3) == Ok(true));
    assert!(rt; over_polled_replicas(9, 3) == Err(Refusal::OutOfRange));
}
