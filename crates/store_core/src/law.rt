//! What follows for the state that files stand for, by what changed of the files.
ghost use Rattle.std.specs.Prelude.{◌≡◌, ℕ, Ok, Err, Result};
ghost use Rattle.disk_trait.specs.Files.{Files};
ghost use Rattle.machine_model.specs.State.{State};
ghost use Rattle.store_core.specs.Flow.{Flow};
ghost use Rattle.store_core.specs.Kept.{kept_in};
ghost use Rattle.store_core.specs.New.{kept_anew};
ghost use Rattle.store_core.specs.State.{stands_for, state_with};
ghost use Rattle.store_core.specs.Valid.{KeptIsValid, LiveFilesAreQueued, QueuedFilesAreLive, HeldFilesStandForKept};
ghost use Rattle.store_core.specs.Agreement.{Needs, Agrees, IsNeeded, IsUnmade};

/// Where two sets of files agree on what the state of one needs, both keep the same and stand for the same.
pub fn files_that_agree_stand_for_the_same()
    ensures reflexive { (needs : Needs) (files : Files) → Agrees needs files files }
    ensures transitive { (needs : Needs) (old mid new : Files) → Agrees needs old mid → Agrees needs mid new
        → Agrees needs old new }
    ensures kept { (flow : Flow) (lot : ℕ) (needs : Needs) (old new : Files) → IsNeeded flow lot old needs
        → Agrees needs old new → kept_in flow lot new ≡ kept_in flow lot old }
    ensures state { (flow : Flow) (lot : ℕ) (needs : Needs) (old new : Files) (s : State) → IsNeeded flow lot old needs
        → Agrees needs old new → stands_for flow lot old ≡ Ok s → stands_for flow lot new ≡ Ok s }
{}

/// While a store is being made, its files stand for a new one.
pub fn files_of_no_store_stand_for_a_new_one()
    ensures kept { (flow : Flow) (lot : ℕ) (files : Files) → IsUnmade files
        → kept_in flow lot files ≡ Ok (kept_anew flow lot) }
    ensures state { (flow : Flow) (lot : ℕ) (files : Files) → IsUnmade files
        → (s : State) × (stands_for flow lot files ≡ Ok s) }
{}

/// What is kept is a state of the machine, its queues have the live files, and files that hold it stand for it.
pub fn what_is_kept_is_a_state()
    ensures valid { KeptIsValid }
    ensures queued { LiveFilesAreQueued }
    ensures live { QueuedFilesAreLive }
    ensures stands { HeldFilesStandForKept }
{}
