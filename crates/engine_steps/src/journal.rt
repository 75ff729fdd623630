//! How a step becomes an entry of the journal.
ghost use Rattle.std.specs.Prelude.{◌≡◌, ◌<◌, vec_len, vec_capacity};
ghost use Rattle.engine_steps.specs.Journal.{journaled};

use crate::EngineError;
use machine_model::{Entry, Step};

/// Notes a step in the journal that was committed so: acknowledged at the moment that the commit answered, or not
/// acknowledged where the disk failed within it. At any other error the commit hadn't begun. There is room for an entry.
pub fn note(journal: &mut Vec<Entry>, step: Step, committed: &Result<u64, EngineError>)
    requires room { vec_len journal.old < vec_capacity journal.old }
    ensures { journal.new.items ≡ journaled committed.now step journal.old.items }
{
    let acked = match committed {
        Ok(moment) => Some(*moment),
        Err(EngineError::Disk) => None,
        Err(_) => return,
    };
    let Ok(()) = journal.push(Entry { step, acked }) else {
        unreachable!()
    };
}
