//! The files that a walk found.
ghost use Rattle.std.specs.Prelude.{◌≡◌, ◌==◌, ◌+◌, ◌<◌, ◌^◌, [], slice_get, IfSome, OnOk, OnErr};
ghost use Rattle.std.specs.List.{IsDistinct};
ghost use Rattle.lineage_query.specs.Walk.{with_new, with_all};

use std::alloc::{AllocError, Global};
use std::collections::BTreeSet;
use std::marker::Model;

/// Files in the order in which they were found, each once.
#[derive(Drop)]
pub(crate) struct Found {
    files: Vec<u64>,
    seen: BTreeSet<u64>,
}

impl Model for Found {
    ghost use Rattle.std.specs.Prelude.{ℕ, List};

    ghost Value = { List ℕ };

    ghost use Rattle.std.specs.Prelude.{◌≡◌, ◌==◌};
    ghost use Rattle.std.specs.List.{list_any, IsDistinct};
    ghost use Rattle.std.specs.Ordering.{nat_cmp};
    ghost use Rattle.std.specs.BTreeSet.{contains};

    ghost view = { λ found. found.files.items };

    ghost invariant = { λ found. IsDistinct (λ a b. a == b) found.files.items
        × ((file : ℕ) → contains nat_cmp found.seen file ≡ list_any (λ f. file == f) found.files.items) };
}

impl Found {
    pub(crate) fn new(alloc: Global) -> Found
        ensures { result ≡ [] }
    {
        Found {
            files: Vec::new(alloc),
            seen: BTreeSet::new(alloc),
        }
    }

    /// The file at a place in the order of finding.
    pub(crate) fn get(&self, place: usize) -> Option<u64>
        ensures file { result ≡ slice_get self.now place }
        ensures distinct { IsDistinct (λ a b. a == b) self.now }
        ensures fits { IfSome result (λ _. place + 1 < 2 ^ 64) }
    {
        self.files.get(place).copied()
    }

    /// Adds a file, unless it was found before.
    pub(crate) fn add(&mut self, file: u64) -> Result<(), AllocError>
        ensures ok { OnOk result (self.new ≡ with_new self.old file) }
        ensures err { OnErr result (self.new ≡ self.old) }
    {
        self.files.reserve(1)?;
        if self.seen.insert(file)? {
            self.files.push_reserved(file);
        }
        Ok(())
    }

    /// Adds files, those that weren't found before.
    pub(crate) fn add_all(&mut self, files: &[u64]) -> Result<(), AllocError>
        ensures { OnOk result (self.new ≡ with_all self.old files.now) }
    {
        for file in files {
            self.add(*file)?;
        }
        Ok(())
    }

    pub(crate) fn into_vec(self) -> Vec<u64>
        ensures files { result.items ≡ self }
        ensures distinct { IsDistinct (λ a b. a == b) self }
    {
        self.files
    }
}
