ghost use Rattle.std.specs.Prelude.{◌≡◌, ℕ, ◌<◌, ◌≤◌, true, false, not, ◌&&◌, ◌||◌, ◌↔◌, IsTrue, MatchOption, MatchResult, ◌==◌};
ghost use Rattle.std.specs.Iterator.{at_most};
ghost use Rattle.stamps.specs.Numbers.{keys};
ghost use Rattle.stamps.specs.Keys.{count_keys};
ghost use Rattle.stamps.specs.KeySets.{has, GivesLowest};
ghost use Rattle.stamps.specs.declared.refusal.Refusal.TheVariants.{OutOfRange};

use crate::below::Key;
use crate::limits::KEYS;
use crate::refusal::Refusal;

// A set of keys: the bit of each key's number, 32 of them.
#[derive(Clone, Copy, PartialEq, Eq)]
pub struct KeySet {
    bits: u32,
}

impl KeySet {
    // The set without a key.
    pub fn empty() -> KeySet
        ensures { (k : ℕ) → has result k ≡ false }
    {
        KeySet { bits: 0 }
    }

    // The set of the keys that pass a test.
    pub fn of<F: Fn(Key) -> bool>(test: F) -> KeySet
        requires { (k : ℕ) → k < keys → F.pre test k }
        ensures tested { (k : ℕ) → k < keys → F.post test k (has result k) }
        ensures within { (k : ℕ) → keys ≤ k → has result k ≡ false }
    {
        let mut passing = KeySet::empty();
        for key in Key::all() {
            if test(key) {
                passing = passing.with(key);
            }
        }
        passing
    }

    // Puts a key into the set; a key out of range is refused 14, and the set stays.
    pub fn insert(&mut self, key: u32) -> Result<(), Refusal>
        ensures { MatchResult result
            (λ _. (key < keys) × ((k : ℕ) → has self.new k ≡ (k == key || has self.old k)))
            (λ e. (e ≡ OutOfRange) × (keys ≤ key) × (self.new ≡ self.old)) }
    {
        *self = self.with(Key::try_from(key)?);
        Ok(())
    }

    // Strikes a key out of the set, and says whether it was there.
    pub fn remove(&mut self, key: u32) -> bool
        ensures found { result ≡ has self.old key }
        ensures struck { (k : ℕ) → has self.new k ≡ (not (k == key) && has self.old k) }
    {
        let found = self.contains(key);
        if let Ok(key) = Key::try_from(key) {
            *self = self.without(key);
        }
        found
    }

    // Whether a key is in the set; no key out of range is. Kept a test of the number: tried by `Key::try_from` and
    // `is_ok_and`, and the proof did not close.
    pub fn contains(self, key: u32) -> bool
        ensures found { result ≡ has self key }
        ensures within { has self key ≡ true → key < keys }
    {
        key < KEYS && (self.bits >> key) % 2 == 1
    }

    // The keys that both sets have.
    pub fn masked(self, other: KeySet) -> KeySet
        ensures { (k : ℕ) → has result k ≡ (has self k && has other k) }
    {
        KeySet {
            bits: self.bits & other.bits,
        }
    }

    // How many keys the set has.
    pub fn len(self) -> u32
        ensures { result ≡ count_keys (has self) }
    {
        self.bits.count_ones()
    }

    // Whether the set has no key.
    pub fn is_empty(self) -> bool
        ensures { IsTrue result ↔ ((k : ℕ) → has self k ≡ false) }
    {
        self.lowest().is_none()
    }

    // The lowest key of the set, or none of the empty set.
    pub fn lowest(self) -> Option<Key>
        ensures { MatchOption result ((k : ℕ) → has self k ≡ false)
            (λ key. (key < keys) × (has self key ≡ true) × ((k : ℕ) → k < key → has self k ≡ false)) }
    {
        Key::try_from(self.bits.trailing_zeros()).ok()
    }

    // The keys of the set, upward.
    pub fn keys(self) -> Keys
        ensures { result.left ≡ self }
    {
        Keys { left: self }
    }

    // The set with a key put in.
    pub fn with(self, key: Key) -> KeySet
        ensures { (k : ℕ) → has result k ≡ (k == key || has self k) }
    {
        KeySet {
            bits: self.bits | (1 << key.number()),
        }
    }

    // The set with a key struck out.
    pub fn without(self, key: Key) -> KeySet
        ensures { (k : ℕ) → has result k ≡ (not (k == key) && has self k) }
    {
        KeySet {
            bits: self.bits & !(1 << key.number()),
        }
    }
}

// Gives the keys of a set, upward.
#[derive(Clone, Copy)]
pub struct Keys {
    left: KeySet,
}

impl Iterator for Keys {
    type Item = Key;

    ghost next_gives = { λ s found t. GivesLowest s.left found t.left };

    ghost remaining = { λ s. at_most (count_keys (has s.left)) };

    fn next(&mut self) -> Option<Key> {
        let key = self.left.lowest()?;
        self.left = self.left.without(key);
        Some(key)
    }
}
