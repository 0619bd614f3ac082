ghost use Rattle.std.specs.Prelude.{◌≡◌, Some};
ghost use Rattle.stamps.specs.Values.{in_range, letter_of, text_of};

use crate::limits::{AMOUNT_LIMIT, CARD_LIMIT};
use std::fmt;

// What a version says of its key.
#[derive(Clone, Copy, PartialEq, Eq)]
pub enum Value {
    // Letter A: a balance in cents, 0 to 99,999,999.
    Amount(u32),
    // Letter F: the card is free.
    Free,
    // Letter X: the card is barred.
    Barred,
    // Letter N: the number of the card that replaces this one, 0 to 999,999.
    Replaced(u32),
}

impl Value {
    // Whether the number in the value lies within its limit.
    pub fn in_range(self) -> bool
        ensures { result ≡ in_range self }
    {
        match self {
            Value::Amount(cents) => cents <= AMOUNT_LIMIT,
            Value::Free | Value::Barred => true,
            Value::Replaced(card) => card <= CARD_LIMIT,
        }
    }

    // The letter that stands for the value in a line. Kept beside the enum: the rules give each value its letter.
    pub fn letter(self) -> u8
        ensures { result ≡ letter_of self }
    {
        match self {
            Value::Amount(_) => b'A',
            Value::Free => b'F',
            Value::Barred => b'X',
            Value::Replaced(_) => b'N',
        }
    }
}

// The value in words, an amount in whole units and hundredths.
impl fmt::Display for Value {
    ghost output = { λ value. Some (text_of value) };

    fn fmt<W: fmt::Write>(&self, f: &mut fmt::Formatter<W>) -> fmt::Result {
        match self {
            Value::Amount(cents) => write!(f, "balance {}.{:02}", cents / 100, cents % 100),
            Value::Free => write!(f, "card free"),
            Value::Barred => write!(f, "card barred"),
            Value::Replaced(card) => write!(f, "replaced by card {card}"),
        }
    }
}
