//! Answers of a session's calls, for processors.
ghost use Rattle.std.specs.Prelude.{◌≡◌, IfErr, IfOk, IsOk, Ok};

use process_session::SessionError;
use std::alloc::AllocError;

/// The answer of a session's call that want of memory alone refuses.
pub fn or_no_memory<T: Drop>(answer: Result<T, SessionError>) -> Result<T, AllocError>
    requires { IfErr answer (λ error. error ≡ SessionError.Memory) }
    ensures value { IfOk result (λ value. answer ≡ Ok value) }
    ensures ok { IsOk answer → IsOk result }
{
    match answer {
        Ok(value) => Ok(value),
        Err(SessionError::Memory) => Err(AllocError),
        Err(_) => unreachable!(),
    }
}
