//! How large a flow's text may be.
ghost use Rattle.std.specs.Prelude.{◌≡◌, ◌*◌, ◌^◌};

/// The greatest length of a flow's text, in bytes: 4 MiB.
pub const TEXT_MAX: u64 = 4_194_304;

/// The limit as a number. This function does nothing: its contract is the law.
pub fn limit_of_a_text()
    ensures { TEXT_MAX ≡ 4 * 2 ^ 20 }
{}
