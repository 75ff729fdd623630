//! The calls of a disk in memory that succeeded, and the moment of each.
ghost use Rattle.std.specs.Prelude.{◌≡◌, ◌≤◌, nat_le, [], length, count_by, OnOk};
ghost use Rattle.disk_trait.specs.MemoryCalls.{HasRoom, Notes, HasSameCalls};

use super::DiskCall;
use std::alloc::{AllocError, Global};

#[derive(Drop)]
pub(crate) struct CallList {
    pub(crate) calls: Vec<DiskCall>,
    pub(crate) moments: Vec<u64>,
}

impl CallList {
    pub(crate) fn new(alloc: Global) -> CallList
        ensures calls { result.calls.items ≡ [] }
        ensures moments { result.moments.items ≡ [] }
    {
        CallList {
            calls: Vec::new(alloc),
            moments: Vec::new(alloc),
        }
    }

    /// How many of the calls came up to a moment.
    pub(crate) fn count_until(&self, at: u64) -> usize
        ensures count { result ≡ count_by (λ moment. nat_le moment at) self.now.moments.items }
        ensures within { result ≤ length self.now.moments.items }
    {
        self.moments.iter().filter(|moment| **moment <= at).count()
    }

    /// Makes room for one more call.
    pub(crate) fn reserve(&mut self) -> Result<(), AllocError>
        ensures room { OnOk result (HasRoom self.new) }
        ensures same { HasSameCalls self.old self.new }
    {
        self.calls.reserve(1)?;
        self.moments.reserve(1)
    }

    /// Notes a call of this moment.
    pub(crate) fn note(&mut self, call: DiskCall, moment: u64)
        requires { HasRoom self.old }
        ensures { Notes self.old self.new call moment }
    {
        self.calls.push(call).unwrap();
        self.moments.push(moment).unwrap();
    }
}
