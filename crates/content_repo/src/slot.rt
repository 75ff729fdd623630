//! What is known of a slot.
ghost use Rattle.std.specs.Prelude.{◌≡◌};
ghost use Rattle.content_repo.specs.Slots.{unused, is_open, is_idle};

/// A claim takes contents while it is shorter than this, in bytes: 1 MiB.
pub const OPEN_SIZE: u64 = 1_048_576;

/// What is known of a slot.
#[derive(Clone, Copy, Debug, PartialEq, Eq)]
pub struct Slot {
    /// Whether contents are kept under its number.
    pub live: bool,
    /// How many references to it are held.
    pub count: u32,
    /// The size of its file, in bytes.
    pub size: u64,
}

impl Slot {
    /// A slot without contents.
    pub fn unused() -> Slot
        ensures { result ≡ unused }
    {
        Slot {
            live: false,
            count: 0,
            size: 0,
        }
    }

    /// Whether it takes contents.
    pub fn is_open(&self) -> bool
        ensures { result ≡ is_open self.now }
    {
        self.live && self.size < OPEN_SIZE
    }

    /// Whether it has contents that nothing refers to.
    pub fn is_idle(&self) -> bool
        ensures { result ≡ is_idle self.now }
    {
        self.live && self.count == 0
    }
}
