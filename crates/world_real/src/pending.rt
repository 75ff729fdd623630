//! What of a store no sync has made durable yet.
use disk_trait::FileName;
use std::alloc::{AllocError, Global};
use std::collections::BTreeSet;

/// What the next sync has to sync.
#[derive(Drop)]
pub(crate) enum Pending {
    /// All that stands in the folder: an earlier process may have been killed with writes pending.
    Everything,
    /// These files, and which entries stand in the folder where one came or went.
    Touched {
        files: BTreeSet<FileName>,
        entries: bool,
    },
    /// More than a sync can make durable. Where the system refused to sync a file it may have dropped
    /// what was written, and it says so only once.
    Lost,
}

impl Pending {
    pub(crate) fn nothing(alloc: Global) -> Pending {
        Pending::Touched {
            files: BTreeSet::new(alloc),
            entries: false,
        }
    }

    pub(crate) fn has(&self, name: FileName) -> bool {
        match self {
            Pending::Touched { files, .. } => files.contains(&name),
            Pending::Everything | Pending::Lost => true,
        }
    }

    /// The file is about to be changed.
    pub(crate) fn touch(&mut self, name: FileName) -> Result<(), AllocError> {
        if let Pending::Touched { files, .. } = self {
            files.insert(name)?;
        }
        Ok(())
    }

    /// An entry is about to come or to go.
    pub(crate) fn touch_entries(&mut self) {
        if let Pending::Touched { entries, .. } = self {
            *entries = true;
        }
    }

    /// The file is gone.
    pub(crate) fn forget(&mut self, name: FileName) {
        if let Pending::Touched { files, .. } = self {
            files.remove(&name);
        }
    }
}
