ghost use Rattle.std.specs.Prelude.{◌≡◌, ℕ, ◌<◌, not, [], ◌∷◌, ◌++◌, ◌↔◌, IsTrue, map, length, filter};
ghost use Rattle.std.specs.List.{AllByRecursion};
ghost use Rattle.store.specs.Holding.{registered_at};
ghost use Rattle.replicas.specs.Numbers.{delivery_limit};
ghost use Rattle.replicas.specs.Pending.{pending, any_come};
ghost use Rattle.replicas.specs.Replicas.{Addressed, lowered, has_come, delivered, deliveries_bar};

use crate::delivery::Delivery;
use crate::limits::{DELIVERY_LIMIT, PLACES_WANTED};
use stamps::refusal::{Bar, Refusal};
use store::queue::Queue;
use store::site_registers::SiteRegisters;

// The pending deliveries, in list order.
#[derive(Clone, Copy)]
pub(crate) struct Deliveries {
    list: Queue<Delivery, DELIVERY_LIMIT>,
}

impl Deliveries {
    // Nothing on its way.
    pub(crate) fn new() -> Deliveries
        ensures { pending result ≡ [] }
    {
        Deliveries {
            list: Queue::new(Delivery::filler()),
        }
    }

    // What a put would be refused with: 32 while fewer than 3 places are free. Kept apart from the log's bar: another
    // refusal at another limit, in one test each.
    pub(crate) fn bar(&self) -> Option<Bar>
        ensures { result ≡ deliveries_bar (pending self.now) }
    {
        let full = DELIVERY_LIMIT - self.list.len() < PLACES_WANTED;
        full.then(|| Bar::new(Refusal::DeliveriesFull))
    }

    // Whether nothing is on its way.
    pub(crate) fn is_empty(&self) -> bool
        ensures { IsTrue result ↔ (pending self.now ≡ []) }
    {
        self.list.is_empty()
    }

    // Adds a delivery at the end of the list. Kept a requires: whether there is room is for the caller to know, by `bar`.
    pub(crate) fn add(&mut self, delivery: Delivery)
        requires { length (pending self.old) < delivery_limit }
        ensures { pending self.new ≡ pending self.old ++ delivery ∷ [] }
    {
        self.list.push(delivery);
    }

    // Takes one tick from each delivery, and tells whether any has come.
    pub(crate) fn lower(&mut self) -> bool
        ensures lowered { pending self.new ≡ map lowered (pending self.old) }
        ensures due { result ≡ any_come (pending self.new) }
    {
        self.list.update(|delivery| delivery.tick());
        self.list
            .as_slice()
            .iter()
            .any(|delivery| delivery.has_come())
    }

    // Delivers what has come into the registers, in list order. Kept a requires, here and in a tick: deliveries are plain
    // records, and the replicas' good state tells that they are addressed.
    pub(crate) fn deliver(&self, registers: &mut SiteRegisters)
        requires { AllByRecursion Addressed (pending self.now) }
        ensures { (s k : ℕ) → registered_at registers.new s k
            ≡ delivered (registered_at registers.old) (filter has_come (pending self.now)) s k }
    {
        for delivery in self.list.as_slice() {
            if delivery.has_come() {
                registers.take(delivery.site, &delivery.version);
            }
        }
    }

    // Removes what has come.
    pub(crate) fn remove(&mut self)
        ensures { pending self.new ≡ filter (λ d. not (has_come d)) (pending self.old) }
    {
        self.list.retain(|delivery| !delivery.has_come());
    }
}
