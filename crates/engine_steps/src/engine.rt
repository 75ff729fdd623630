//! What an engine has in memory.
ghost use Rattle.flowfile_record.specs.NamedFile.{bytes_of};
ghost use Rattle.std.specs.Prelude.{◌≡◌, ◌⊎◌, ◌-◌, ◌^◌, ◌<◌, ◌≤◌, filter, length, map, IfOk, IfErr, IsErrOf, IsTrue};
ghost use Rattle.disk_trait.specs.Faults.{CountsFaults};
ghost use Rattle.world_io.specs.Inbox.{IsAscending};
ghost use Rattle.machine_model.specs.Sound.{IsSound};
ghost use Rattle.store_core.specs.Flow.{flow_in};
ghost use Rattle.store_core.specs.Store.{kept_by};
ghost use Rattle.engine_change.specs.Committing.{identity_of};
ghost use Rattle.flowfile_wal.specs.Calls.{InEach};
ghost use Rattle.machine_model.specs.State.{Machine};
ghost use Rattle.run_law.specs.Run.{StandsFor};
ghost use Rattle.engine_steps.specs.Opening.{IsOpened, IsToCome, fits_in};
ghost use Rattle.engine_steps.specs.Ready.{EngineIsReady};
ghost use Rattle.engine_steps.specs.Showing.{EngineShowsState};

use crate::EngineError;
use crate::flight::InFlight;
use crate::memory::holds_its_state;
use disk_trait::Disk;
use engine_queues::{Listing, Queues, what_is_kept_is_seen};
use machine_model::{Entry, Flow};
use std::alloc::Global;
use std::marker::Model;
use store_core::Store;
use world_io::{CONTENT_MAX, Inbox, Name};

/// What runs a flow: the store and the queues of what it keeps, the names of the inbox that are left, the processor
/// that got the last session, the journal, how many entries it may have, with how many entries in its log the store makes
/// a checkpoint, how many entries came since the claims were last reclaimed, whether the disk or a put has failed, so that
/// the store must be opened anew, the moment at which nothing was due, where nothing was done since, the sessions in
/// flight, and the number of the next one. It holds no device: each call takes those that it needs.
#[derive(Drop)]
pub struct Engine<'f> {
    pub(crate) flow: &'f Flow,
    pub(crate) store: Store,
    pub(crate) queues: Queues,
    pub(crate) listing: Listing<'f>,
    pub(crate) last: Option<u16>,
    pub(crate) journal: Vec<Entry>,
    pub(crate) most: u64,
    pub(crate) checkpoint: u64,
    pub(crate) since_reclaim: u64,
    pub(crate) has_failed: bool,
    pub(crate) tended: Option<u64>,
    pub(crate) out: Vec<InFlight>,
    pub(crate) next_session: u64,
}

impl<'f> Model for Engine<'f> {
    ghost use Rattle.std.specs.Coded.{codes};
    ghost use Rattle.flowfile_record.specs.contracts.attributes.Attributes as attributes;
    ghost use Rattle.machine_model.specs.contracts.flow.Flow as the_flow;
    ghost use Rattle.engine_steps.specs.Engine.{EngineState};

    ghost Value = { EngineState };

    ghost coded = { Prim.hlevel (codes, attributes.the_row.coded, the_flow.the_row.coded) };

    ghost view = { λ engine. record {
      flow = engine.flow.now;
      store = engine.store;
      queues = engine.queues;
      listing = engine.listing;
      last = engine.last;
      journal = engine.journal.items;
      most = engine.most;
      checkpoint = engine.checkpoint;
      since_reclaim = engine.since_reclaim;
      failed = engine.has_failed;
      tended = engine.tended;
      out = engine.out.items;
      next_session = engine.next_session;
    } };
}

impl<'f> Engine<'f> {
    /// An engine that is to run a flow over a store of it, until the journal has `most` entries, with a checkpoint where
    /// the log has `checkpoint` entries. The inbox is listed once: files that come later aren't seen, and those that are
    /// larger than a content may be are left there.
    pub fn new<I: Inbox>(
        alloc: Global,
        flow: &'f Flow,
        store: Store,
        most: u64,
        checkpoint: u64,
        inbox: &mut I,
    ) -> Result<Engine<'f>, EngineError>
        requires sound { IsSound flow.now }
        requires flow { flow_in (kept_by store) ≡ identity_of flow.now }
        requires most { most < 2 ^ 64 - 1 }
        ensures opened { IfOk result (IsOpened flow.now store most checkpoint) }
        ensures listed { IfOk result (IsToCome I.tells (I.left inbox.old) (I.left inbox.new)) }
        ensures left { I.left inbox.new ≡ I.left inbox.old }
        ensures kinds { IfErr result (λ error. (error ≡ EngineError.Inbox) ⊎ (error ≡ EngineError.Memory)) }
        ensures cause { CountsFaults (I.faults inbox.old) (I.faults inbox.new) (IsErrOf result EngineError.Inbox) }
    {
        let mut names = Vec::new(alloc);
        inbox.list(&mut names)?;
        let listed = names.len();
        let coming = names_that_fit(alloc, inbox, names)?;
        let too_large = (listed - coming.len()) as u64;
        let queues = Queues::open(alloc, flow, store.state())?;
        let listing = Listing::new(alloc, flow, coming, too_large)?;
        Ok(Engine {
            flow,
            store,
            queues,
            listing,
            last: None,
            journal: Vec::new(alloc),
            most,
            checkpoint,
            since_reclaim: 0,
            has_failed: false,
            tended: None,
            out: Vec::new(alloc),
            next_session: 0,
        })
    }

    /// The steps of the run, in their order. One that the disk's failure cut off stands last, and isn't acknowledged.
    pub fn journal(&self) -> &[Entry]
        ensures { result.now ≡ self.now.journal }
    {
        self.journal.as_slice()
    }

    /// The flow that it runs.
    pub fn flow(&self) -> &'f Flow
        ensures { result.now ≡ self.now.flow }
    {
        self.flow
    }

    /// The id of its store.
    pub fn store_id(&self) -> u64
        ensures { result ≡ (kept_by self.now.store).store }
    {
        self.store.state().store
    }

    // How many entries the journal has.
    pub(crate) fn entries(&self) -> u64
        ensures { result ≡ length self.now.journal }
    {
        self.journal.len() as u64
    }

    /// It does nothing: where the disk tells, the engine shows the machine's state beside the sessions in flight.
    pub fn shows_its_state<D: Disk>(&self, disk: &D)
        requires { EngineIsReady D.tells D.held D.moment D.images self.now disk.now }
        ensures { IsTrue D.tells → (m : Machine)
            → InEach (D.images disk.now (D.moment disk.now)) (StandsFor self.now.flow self.now.store.lot m)
            → EngineShowsState self.now m }
    {
        holds_its_state(&self.store, disk);
        what_is_kept_is_seen();
        let _stored = self.store.state();
    }
}

// Those of these names whose files fit a content, in their order.
fn names_that_fit<I: Inbox>(
    alloc: Global,
    inbox: &mut I,
    names: Vec<Name>,
) -> Result<Vec<Name>, EngineError>
    requires listed { IsTrue I.tells → names.items ≡ map (λ file. file.name) (I.left inbox.old) }
    requires ascending { IsAscending names.items }
    ensures fit { IfOk result (λ coming. IsTrue I.tells
        → coming.items ≡ filter (fits_in (I.left inbox.old)) names.items) }
    ensures few { IfOk result (λ coming. length coming.items ≤ length names.items) }
    ensures ascending { IfOk result (λ coming. IsAscending coming.items) }
    ensures left { I.left inbox.new ≡ I.left inbox.old }
    ensures kinds { IfErr result (λ error. (error ≡ EngineError.Inbox) ⊎ (error ≡ EngineError.Memory)) }
    ensures cause { CountsFaults (I.faults inbox.old) (I.faults inbox.new) (IsErrOf result EngineError.Inbox) }
{
    let mut coming = Vec::new(alloc);
    for name in names {
        let Ok(size) = inbox.size(&name) else {
            return Err(EngineError::Inbox);
        };
        if size <= CONTENT_MAX {
            let Ok(()) = coming.push(name) else {
                return Err(EngineError::Memory);
            };
        }
    }
    Ok(coming)
}
