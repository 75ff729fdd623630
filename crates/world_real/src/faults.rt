//! The count of a device's faults.
ghost use Rattle.std.specs.Prelude.{◌≡◌, Ok, IfOk, IsErr};
ghost use Rattle.disk_trait.specs.Faults.{CountsFaults};

use disk_trait::Failed;
use std::io;

/// Counts a failure of the system, and answers it without its cause.
pub(crate) fn counted<T>(faults: &mut u64, answer: io::Result<T>) -> Result<T, Failed>
    ensures value { IfOk result (λ value. answer ≡ Ok value) }
    ensures failed { IsErr answer → IsErr result }
    ensures cause { CountsFaults faults.old faults.new (IsErr result) }
{
    match answer {
        Ok(value) => Ok(value),
        Err(_) => {
            *faults = faults.saturating_add(1);
            Err(Failed)
        }
    }
}

/// Whether a failure is this process's want of memory. The system's own is a fault of the device.
pub(crate) fn is_out_of_memory(error: &io::Error) -> bool {
    error.kind() == io::ErrorKind::OutOfMemory && error.raw_os_error().is_none()
}
