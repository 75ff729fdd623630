//! What the language's limits are. This function does nothing: its contract is the law.
ghost use Rattle.std.specs.Prelude.{◌≡◌, ◌*◌, ◌^◌};

use crate::{DEPTH_MAX, TEXT_MAX, VALUE_MAX};

/// An expression has at most 4,096 bytes and nests at most 16 embedded expressions; a text that is evaluated has at
/// most 64 KiB.
pub fn limits_of_the_language()
    ensures text { TEXT_MAX ≡ 4096 }
    ensures depth { DEPTH_MAX ≡ 16 }
    ensures value { VALUE_MAX ≡ 64 * 2 ^ 10 }
{}
