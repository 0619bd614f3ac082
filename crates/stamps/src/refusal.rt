ghost use Rattle.std.specs.Prelude.{◌≡◌, ◌+◌, min};
ghost use Rattle.stamps.specs.Numbers.{depth_limit};
ghost use Rattle.stamps.specs.Refusals.{number};

use crate::limits::DEPTH_LIMIT;
use thiserror::Error;

// Why something was refused. Each variant's number is the one that answer lines print.
#[derive(Clone, Copy, Debug, PartialEq, Eq, Error)]
pub enum Refusal {
    // A line's word is none of the known ones.
    #[error("the word of the line is unknown")]
    UnknownWord = 11,
    // A line has more or fewer fields than its word takes.
    #[error("the line has more or fewer fields than its word takes")]
    FieldCount = 12,
    // A field is not of its form: no number of 1 to 8 digits, or no letter of a value.
    #[error("a field is not of its form")]
    FieldForm = 13,
    // A number lies outside its range, or a record is no version.
    #[error("a number is out of range, or the record is no version")]
    OutOfRange = 14,
    // The heading H stands elsewhere than in line 1, or another word stands there.
    #[error("the heading stands elsewhere than in line 1, or another word stands there")]
    HeadingPlace = 15,
    // The workload is longer than 65,536 bytes.
    #[error("the workload is too long")]
    WorkloadTooLong = 17,
    // Fewer than 64 usable bytes of the answer buffer are left before a line.
    #[error("the answer buffer is spent")]
    BufferSpent = 18,
    // A sale is open already.
    #[error("a sale is open already")]
    SaleOpen = 21,
    // No sale is open.
    #[error("no sale is open")]
    NoSale = 22,
    // The counter of the post would be above its limit.
    #[error("the counter is spent")]
    CounterSpent = 23,
    // The row of the post has a counter that is not below the post's own.
    #[error("a cause is not older than the post")]
    CauseNotOlder = 24,
    // The replicas' list of deliveries has fewer than 3 places free.
    #[error("the list of deliveries is full")]
    DeliveriesFull = 32,
    // The log's tail has 64 versions.
    #[error("the tail of the log is full")]
    TailFull = 33,
}

impl Refusal {
    // The number that stands for this refusal in an answer line. Kept beside the enum: the rules give each its number.
    pub fn number(self) -> u32
        ensures { result ≡ number self }
    {
        self as u32
    }
}

// What keeps a store from taking a put: the refusal that the put gets, and its depth, which is how many
// layers the refusal has passed up through; it stays at 255 once there.
#[derive(Clone, Copy, Debug, PartialEq, Eq)]
pub struct Bar {
    pub refusal: Refusal,
    pub depth: u8,
}

impl Bar {
    // The bar at the store that refuses.
    pub fn new(refusal: Refusal) -> Bar
        ensures refusal { result.refusal ≡ refusal }
        ensures depth { result.depth ≡ 0 }
    {
        Bar { refusal, depth: 0 }
    }

    // The bar as the layer above gives it.
    pub fn passed_up(self) -> Bar
        ensures refusal { result.refusal ≡ self.refusal }
        ensures depth { result.depth ≡ min depth_limit (self.depth + 1) }
    {
        Bar {
            refusal: self.refusal,
            depth: self.depth.saturating_add(1).min(DEPTH_LIMIT),
        }
    }
}
