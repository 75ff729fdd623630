//! What a query sees of the store of a flow.
ghost use Rattle.std.specs.Prelude.{◌≡◌, ℕ, Ok};
ghost use Rattle.disk_trait.specs.Files.{Files};
ghost use Rattle.flowfile_record.specs.Stored.{Kept};
ghost use Rattle.machine_model.specs.State.{State};
ghost use Rattle.store_core.specs.Flow.{Flow};
ghost use Rattle.store_core.specs.Kept.{kept_in};
ghost use Rattle.store_core.specs.Seen.{no_flow};
ghost use Rattle.store_core.specs.State.{stands_for};
ghost use Rattle.flow_query.specs.OwnFlow.{StoreIsMade, state_anew};

/// A query knows no flow, and yet sees what a run of any flow sees that opens the same files. Once a store is made,
/// both find the same kept and the same state, all of it: queues, contents, events, kin and counters. Before that,
/// each finds a new store of its own: without files and events, and that of a query has no connections.
pub fn a_query_sees_the_state_of_a_run()
    ensures kept { (flow : Flow) (lot of_query : ℕ) (files : Files) (kept : Kept) → StoreIsMade files
        → kept_in flow lot files ≡ Ok kept → kept_in no_flow of_query files ≡ Ok kept }
    ensures state { (flow : Flow) (lot of_query : ℕ) (files : Files) (state : State) → StoreIsMade files
        → stands_for flow lot files ≡ Ok state → stands_for no_flow of_query files ≡ Ok state }
    ensures new { (flow : Flow) (lot of_query : ℕ) (files : Files) (state : State) → (StoreIsMade files → ⊥)
        → stands_for flow lot files ≡ Ok state
        → (state ≡ state_anew flow lot) × (stands_for no_flow of_query files ≡ Ok (state_anew no_flow of_query)) }
{}
