//! How the change of a session becomes part of the outbox, the store and the inbox.
ghost use Rattle.std.specs.Prelude.{◌≡◌, ◌⊎◌, ℕ, true, List, Some, OnOk, IfErr, IsErrOf, IsTrue, IsSome, IfSome};
ghost use Rattle.content_repo.specs.Claims.{content_in};
ghost use Rattle.disk_trait.specs.Faults.{CountsFaults};
ghost use Rattle.flowfile_record.specs.NamedFile.{bytes_of};
ghost use Rattle.kept_state.specs.Fits.{are_active_in};
ghost use Rattle.machine_model.specs.Changing.{HaveDigests};
ghost use Rattle.machine_model.specs.declared.flow.Flow.{Flow as TheFlow};
ghost use Rattle.store_core.specs.Change.{HasLiveContents, MayChange};
ghost use Rattle.store_core.specs.Store.{kept_by};
ghost use Rattle.engine_session.specs.Change.{with_sending, without_received};
ghost use Rattle.engine_steps.specs.Committing.{HasWritten, IsLeftBySend, IsAtWorkWithQueues};
ghost use Rattle.engine_steps.specs.Entering.{MayCommitChange};
ghost use Rattle.run_law.specs.Work.{WritesLog};
ghost use Rattle.run_law.specs.Puts.{outgoing};

use crate::EngineError;
use crate::memory::holds_its_state;
use disk_trait::Disk;
use engine_queues::Queues;
use engine_session::{Changed, Sending};
use store_core::Store;
use world_io::{Inbox, Name, Outbox};

/// Puts what a session sends into the outbox, and then commits its change. All memory is taken before. It answers the
/// moment of the acknowledgement.
pub(crate) fn commit<D: Disk, O: Outbox>(
    store: &mut Store,
    queues: &mut Queues,
    disk: &mut D,
    outbox: &mut O,
    connection: u16,
    changed: Changed,
) -> Result<u64, EngineError>
    requires work { (flow : TheFlow) × (out : List ℕ)
        × IsAtWorkWithQueues flow D.tells D.held D.moment D.images store.old out queues.old disk.old }
    requires change { MayCommitChange D.tells D.held store.old connection changed disk.old }
    ensures written { HasWritten result D.tells D.held D.moment D.images O.tells store.old store.new queues.old
        queues.new changed (outgoing O.standing O.puts outbox.old)
        (outgoing O.standing O.puts outbox.new) disk.old disk.new }
    ensures alone { WritesLog D.moment D.images store.old.log.number disk.old disk.new }
    ensures disk_cause { CountsFaults (D.faults disk.old) (D.faults disk.new) (IsErrOf result EngineError.Disk) }
    ensures outbox_cause { CountsFaults (O.faults outbox.old) (O.faults outbox.new) (IsErrOf result EngineError.Put) }
{
    holds_its_state(store, disk);
    let Changed {
        settled,
        connection: _,
        sending,
    } = changed;
    let prepared = store.prepare(&settled)?;
    queues.reserve(&settled)?;
    send(outbox, &sending)?;
    let moment = store.commit(disk, prepared)?;
    queues.settle(connection, settled, store.state());
    Ok(moment)
}

// Puts what is sent.
fn send<O: Outbox>(outbox: &mut O, sending: &Option<Sending>) -> Result<(), EngineError>
    ensures sent { OnOk result (IsTrue O.tells
        → outgoing O.standing O.puts outbox.new ≡ with_sending sending.now (outgoing O.standing O.puts outbox.old)) }
    ensures failed { IfErr result (λ error. (error ≡ EngineError.Put)
        × (IsTrue O.tells → IsLeftBySend sending.now (outgoing O.standing O.puts outbox.old)
        (outgoing O.standing O.puts outbox.new))) }
    ensures cause { CountsFaults (O.faults outbox.old) (O.faults outbox.new) (IsErrOf result EngineError.Put) }
{
    let Some(sending) = sending else {
        return Ok(());
    };
    let Ok(()) = outbox.put(&sending.name, sending.bytes.as_slice()) else {
        return Err(EngineError::Put);
    };
    Ok(())
}

/// Removes the file that a session received, if any, from the inbox.
pub(crate) fn remove<I: Inbox>(inbox: &mut I, received: &Option<Name>) -> Result<(), EngineError>
    requires left { IfSome received.now (λ name. IsTrue I.tells → IsSome (bytes_of (I.left inbox.old) name)) }
    ensures removed { OnOk result (IsTrue I.tells
        → I.left inbox.new ≡ without_received received.now (I.left inbox.old)) }
    ensures failed { IfErr result (λ error. (error ≡ EngineError.Inbox) × IsSome received.now
        × (IsTrue I.tells → (I.left inbox.new ≡ I.left inbox.old)
        ⊎ (I.left inbox.new ≡ without_received received.now (I.left inbox.old)))) }
    ensures cause { CountsFaults (I.faults inbox.old) (I.faults inbox.new) (IsErrOf result EngineError.Inbox) }
{
    let Some(name) = received else {
        return Ok(());
    };
    let Ok(()) = inbox.remove(name) else {
        return Err(EngineError::Inbox);
    };
    Ok(())
}
