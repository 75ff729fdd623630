//! What follows for the events of files, by what changed of the files.
ghost use Rattle.std.specs.Prelude.{◌≡◌, ℕ, ◌+◌, ◌-◌, ◌%◌, ◌≤◌, List, [], take, drop, length, All, Ok};
ghost use Rattle.disk_trait.specs.Files.{Files};
ghost use Rattle.flowfile_record.specs.Field.{IsBytes};
ghost use Rattle.flowfile_record.specs.declared.event.Event.{Event};
ghost use Rattle.flowfile_record.specs.declared.limits.TheConstants.{EVENTS_PER_FILE};
ghost use Rattle.prov_event.specs.Encoding.{IsEvent};
ghost use Rattle.prov_store.specs.Events.{events_file, events_in, covered_size};
ghost use Rattle.prov_store.specs.State.{EventsState, AreNumberedFrom, HasEvents, EventsAreReady, IsEventLine, SameEvents, KeepsEvents, GrowsBehind, CutsStale, files_between};

/// Files that have the same bytes of the events past a line and up to a last one have the same events, and what calls
/// leave has.
pub fn covered_events_stay()
    ensures same { (line last : ℕ) (old new : Files) (events : List Event) → SameEvents line last old new
        → events_in old line last ≡ Ok events → events_in new line last ≡ Ok events }
    ensures has { (state : EventsState) (old new : Files) → SameEvents state.line state.end old new
        → HasEvents state old → HasEvents state new }
    ensures ready { (state : EventsState) (old new : Files) → ((k : ℕ) → new (events_file k) ≡ old (events_file k))
        → EventsAreReady state old → EventsAreReady state new }
    ensures grows { (state : EventsState) (old new : Files) → HasEvents state old → GrowsBehind state old new
        → KeepsEvents state.line state.end old new }
    ensures cuts { (state : EventsState) (old new : Files) → HasEvents state old
        → All (λ s. s.size ≡ covered_size state.line state.end s.file old) state.stale → CutsStale state.stale old new
        → KeepsEvents state.line state.end old new }
    // What an aging leaves has the events past its line.
    ensures ages { (line later last : ℕ) (old new : Files) → CutsStale (files_between line later) old new
        → KeepsEvents later last old new }
{}

/// Files that keep events keep them over one change and another, and no events are kept by any change.
pub fn events_are_kept_step_by_step()
    ensures none { (old new : Files) → SameEvents 0 0 old new }
    ensures reflexive { (line last : ℕ) (files : Files) → KeepsEvents line last files files }
    ensures transitive { (line last : ℕ) (old mid new : Files) → KeepsEvents line last old mid
        → KeepsEvents line last mid new → KeepsEvents line last old new }
    // Files that keep the events past a line keep those past a later one.
    ensures later { (line later last : ℕ) (old new : Files) → later % EVENTS_PER_FILE ≡ 0 → line ≤ later
        → KeepsEvents line last old new → KeepsEvents later last old new }
{}

/// The events past a line and up to a last one are numbered from the one behind the line to the last, each with an
/// encoding. Those up to an earlier one come first, and those past a later line are the end.
pub fn events_up_to_the_last_are_in_a_row()
    ensures numbered { (files : Files) (line last : ℕ) (events : List Event) → IsEventLine line last
        → events_in files line last ≡ Ok events → AreNumberedFrom (line + 1) events × (length events ≡ last - line) }
    ensures encoded { (files : Files) (line last : ℕ) (events : List Event)
        → ((k : ℕ) → IsBytes (files (events_file k))) → events_in files line last ≡ Ok events → All IsEvent events }
    ensures none { (files : Files) (line : ℕ) → events_in files line line ≡ Ok [] }
    ensures fewer { (files : Files) (line last earlier : ℕ) (events : List Event) → IsEventLine line earlier
        → events_in files line last ≡ Ok events → earlier ≤ last
        → events_in files line earlier ≡ Ok (take (earlier - line) events) }
    ensures past { (files : Files) (line later last : ℕ) (events : List Event) → IsEventLine line later
        → IsEventLine later last → events_in files line last ≡ Ok events
        → events_in files later last ≡ Ok (drop (later - line) events) }
{}
