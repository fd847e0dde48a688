// What a loop does in a turn.

ghost use Rattle.std.specs.Prelude.{◌≡◌};

use crate::summary::Summary;

/// What the first part of a loop does, and what the last part and then the first part do.
#[derive(Drop)]
pub struct Turn {
    pub opening: Summary,
    pub again: Summary,
    ghost same_bound: { opening.reads.bound ≡ again.reads.bound },
}
