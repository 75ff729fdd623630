//! The whole flow.
ghost use Rattle.std.specs.Prelude.{◌≤◌, IfOk};
ghost use Rattle.flowfile_record.specs.Encoding.{IsDigest};
ghost use Rattle.machine_model.specs.Sound.{IsSound};
ghost use Rattle.trial_flow.specs.Trial.{IsTrialFlow};

use crate::connections::connections;
use crate::processors::processors;
use machine_model::{Flow, GENERATED_MAX};
use sha2::{Digest, Sha256};
use std::alloc::{AllocError, Global};

/// The flow of a trial that makes so many files. No text says it, so its digest is that of the empty one.
pub fn trial_flow(alloc: Global, count: u32) -> Result<Flow, AllocError>
    requires { count ≤ GENERATED_MAX }
    ensures is { IfOk result (IsTrialFlow count) }
    ensures sound { IfOk result IsSound }
    ensures digest { IfOk result (λ flow. IsDigest flow.digest) }
{
    Ok(Flow {
        processors: processors(alloc, count)?,
        connections: connections(alloc)?,
        digest: Sha256::digest(&[]),
    })
}
