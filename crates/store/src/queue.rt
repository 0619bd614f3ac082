ghost use Rattle.std.specs.Prelude.{◌≡◌, ◌≤◌, length};

use std::alloc::AllocError;

// At most N items, in order. What stands in the places past them is no part of it. Kept an array and a length, in this
// one place: nothing here may allocate, and a store that holds a queue is Copy, which the kit's ArrayVec is not.
pub struct Queue<T, const N: usize> {
    places: [T; N],
    len: usize,
    ghost sized: { length places ≡ N },
    ghost fits: { len ≤ N },
}

// A queue of items that are Copy is Copy.
// Copy and Clone are by hand: neither derives on a generic struct with ghost fields.
impl<T: Copy, const N: usize> Copy for Queue<T, N> {}

// A clone is the queue itself.
impl<T: Copy, const N: usize> Clone for Queue<T, N> {
    ghost use Rattle.std.specs.Prelude.{◌≡◌, ⊤};

    ghost is_clone = { λ queue clone. clone ≡ queue };

    ghost is_infallible = { λ _. ⊤ };

    fn clone(&self) -> Result<Self, AllocError> {
        Ok(*self)
    }
}

impl<T: Copy, const N: usize> Queue<T, N> {
    ghost use Rattle.std.specs.Prelude.{◌≡◌, ◌<◌, ◌≤◌, ◌↔◌, Bool, IsTrue, [], ◌∷◌, ◌++◌, map, length, drop, filter};
    ghost use Rattle.store.specs.Queues.{items_of, Computes, Changes};

    // No items; what is given fills the places.
    pub fn new(unused: T) -> Self
        ensures { items_of result ≡ [] }
    {
        Queue {
            places: [unused; N],
            len: 0,
        }
    }

    // How many items it has.
    pub fn len(&self) -> usize
        ensures counts { result ≡ length (items_of self.now) }
        ensures fits { result ≤ N }
    {
        self.as_slice().len()
    }

    // Whether it has none.
    pub fn is_empty(&self) -> bool
        ensures { IsTrue result ↔ (items_of self.now ≡ []) }
    {
        self.len == 0
    }

    // The items.
    pub fn as_slice(&self) -> &[T]
        ensures value { result.now ≡ items_of self.now }
        ensures fits { length result.now ≤ N }
    {
        &self.places[..self.len]
    }

    // Adds an item at the end. Kept a requires: whether there is room is for the caller to know, by `len`.
    pub fn push(&mut self, item: T)
        requires { length (items_of self.old) < N }
        ensures { items_of self.new ≡ items_of self.old ++ item ∷ [] }
    {
        self.places[self.len] = item;
        self.len += 1;
    }

    // Drops the first items, so many; the others move down.
    pub fn drop_first(&mut self, count: usize)
        requires { count ≤ length (items_of self.old) }
        ensures { items_of self.new ≡ drop count (items_of self.old) }
    {
        self.places.copy_within(count..self.len, 0);
        self.len -= count;
    }

    // Keeps the items that pass the test, in order.
    pub fn retain<F: Fn(&T) -> bool>(&mut self, keep: F)
        requires { F.IsAlwaysCallable keep }
        ensures { (passes : T → Bool) → Computes F.Fn keep passes
            → items_of self.new ≡ filter passes (items_of self.old) }
    {
        let mut kept = 0;
        // Kept an index loop: the item is read at one place of the array and written at another.
        for place in 0..self.len {
            if keep(&self.places[place]) {
                // an item that stands where it stays is not copied
                if kept != place {
                    self.places[kept] = self.places[place];
                }
                kept += 1;
            }
        }
        self.len = kept;
    }

    // Changes each item to what it becomes.
    pub fn update<F: Fn(&mut T)>(&mut self, change: F)
        requires { F.IsAlwaysCallable change }
        ensures { (becomes : T → T) → Changes F.Fn change becomes
            → items_of self.new ≡ map becomes (items_of self.old) }
    {
        for item in &mut self.places[..self.len] {
            change(item);
        }
    }
}
