ghost use Rattle.std.specs.Prelude.{◌≡◌, ℕ, ◌+◌, ◌<◌, ◌≤◌, true, List, ◌++◌, length};
ghost use Rattle.std.specs.List.{AllByRecursion};
ghost use Rattle.versions.specs.Versions.{is_version};
ghost use Rattle.store.specs.Holding.{registered_at};
ghost use Rattle.replicas.specs.Times.{times_of};
ghost use Rattle.replicas.specs.Network.{network_state};
ghost use Rattle.replicas.specs.Numbers.{delivery_limit, places_wanted};
ghost use Rattle.replicas.specs.Pending.{pending};
ghost use Rattle.replicas.specs.Replicas.{Addressed, sent_now, sent_later, after_put, after_tick, replicas_start};

use crate::deliveries::Deliveries;
use crate::delivery::Delivery;
use crate::line_times::LineTimes;
use stamps::below::Site;
use store::site_registers::SiteRegisters;
use versions::version::Version;

// The registers and what is on its way to them.
#[derive(Clone, Copy)]
pub(crate) struct Network {
    pub(crate) registers: SiteRegisters,
    pub(crate) deliveries: Deliveries,
}

impl Network {
    // Empty registers, and nothing on its way.
    pub(crate) fn new() -> Network
        ensures { (ts : List ℕ) → network_state result ts ≡ replicas_start ts }
    {
        Network {
            registers: SiteRegisters::new(),
            deliveries: Deliveries::new(),
        }
    }

    // Sends a version from a site to every site upward: into the register now where the line time is 0, as it
    // is at the site itself, else by a delivery. Kept requires, here and in the next: the bar has told of the room, and
    // the test of the put that the record is a version.
    pub(crate) fn put(&mut self, times: &LineTimes, site: Site, version: &Version)
        requires valid { is_version version.now ≡ true }
        requires room { length (pending self.old.deliveries) + places_wanted ≤ delivery_limit }
        ensures { network_state self.new (times_of times.now)
            ≡ after_put (network_state self.old (times_of times.now)) site version.now }
    {
        for to in Site::all() {
            self.send(to, times.between(site, to), version);
        }
    }

    // Sends a version to a site: into its register now where no tick is left, else by a delivery.
    fn send(&mut self, to: Site, ticks: u32, version: &Version)
        requires valid { is_version version.now ≡ true }
        requires room { 0 < ticks → length (pending self.old.deliveries) < delivery_limit }
        ensures now { (s k : ℕ) → registered_at self.new.registers s k ≡ sent_now ticks to version.now (registered_at self.old.registers) s k }
        ensures later { pending self.new.deliveries ≡ pending self.old.deliveries ++ sent_later ticks to version.now }
    {
        if ticks == 0 {
            self.registers.take(to.number(), version);
        } else {
            self.deliveries.add(Delivery {
                version: *version,
                site: to.number(),
                left: ticks,
            });
        }
    }

    // One tick: each delivery has one tick less; those at 0 are delivered in list order and removed.
    pub(crate) fn tick(&mut self)
        requires { AllByRecursion Addressed (pending self.old.deliveries) }
        ensures { (ts : List ℕ) → network_state self.new ts ≡ after_tick (network_state self.old ts) }
    {
        if self.deliveries.lower() {
            self.deliveries.deliver(&mut self.registers);
            self.deliveries.remove();
        }
    }
}
