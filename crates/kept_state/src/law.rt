//! Laws of what entries do to what is kept.
ghost use Rattle.std.specs.Prelude.{◌≡◌, ℕ, ◌-◌, ◌==◌, ◌^◌, true, false, List, [], ◌∷◌, ◌++◌, map, Ok, Err, None, if◌then◌else◌};
ghost use Rattle.std.specs.List.{list_any};
ghost use Rattle.flowfile_record.specs.Stored.{Kept};
ghost use Rattle.flowfile_record.specs.declared.change.Change.TheVariants as change;
ghost use Rattle.flowfile_record.specs.declared.change.Settled.{Settled as SettledSession};
ghost use Rattle.flowfile_record.specs.declared.flow_file.FlowFile.{FlowFile as File};
ghost use Rattle.record_codec.specs.EntryEncoding.{IsEntry};
ghost use Rattle.record_codec.specs.Placeless.{placeless_entry};
ghost use Rattle.record_codec.specs.declared.entry.LogEntry.{LogEntry as Entry};
ghost use Rattle.record_codec.specs.declared.entry.SessionEntry.{SessionEntry as Session};
ghost use Rattle.checkpoint_store.specs.Consistent.{IsConsistent};
ghost use Rattle.kept_state.specs.Applied.{active_number, session_applied, applied, batch_swapped_out};
ghost use Rattle.kept_state.specs.Changes.{entry_of_session, entry_of_change, expiry_entry, no_files, MaySettleAs, MayExpireAs};
ghost use Rattle.kept_state.specs.Fits.{active_of, entry_suits, replayed};
ghost use Rattle.kept_state.specs.Limits.{live_limit};

use crate::NUMBER_MAX;

/// The limit of numbers.
pub fn number_of_the_limit()
    ensures { NUMBER_MAX ≡ 2 ^ 62 - 1 }
{}

/// An entry that fits leaves what is kept consistent. No batch is swapped out.
pub fn fits_leave_a_consistent_state()
    ensures consistent { (k : Kept) (e : Entry) → IsConsistent k → k.batches ≡ [] → batch_swapped_out e ≡ [] → IsEntry e
        → entry_suits no_files k e ≡ true → IsConsistent (applied no_files k e) }
    ensures no_batches { (k : Kept) (e : Entry) → k.batches ≡ [] → batch_swapped_out e ≡ []
        → entry_suits no_files k e ≡ true → (applied no_files k e).batches ≡ [] }
{}

/// One entry more is applied behind the others, and nothing is behind one that doesn't fit.
pub fn replays_go_on()
    ensures more { (files : ℕ → List File) (k l : Kept) (entries : List (ℕ × Entry)) (at : ℕ) (e : Entry)
        → replayed files k entries ≡ Ok l
        → replayed files k
        (entries ++ (at, e) ∷ []) ≡ (if entry_suits files l e then Ok (applied files l e) else Err at) }
    ensures unfit { (files : ℕ → List File) (k : Kept) (entries more : List (ℕ × Entry)) (at : ℕ)
        → replayed files k entries ≡ Err at → replayed files k (entries ++ more) ≡ Err at }
{}

/// A settled session that passes no limit of what lives makes an entry that fits.
pub fn settled_sessions_fit()
    ensures { (k : Kept) (s : SettledSession) → MaySettleAs k s
        → live_limit (session_applied k (entry_of_session k s)) ≡ None
        → entry_suits no_files k (entry_of_change k (change.Session s)) ≡ true }
{}

/// Files that may expire do what their settled session does, which may be handed in and passes no limit of what lives.
pub fn expiries_are_sessions()
    ensures same { (k : Kept) (connection : ℕ) (s : SettledSession) → MayExpireAs k connection s
        → applied no_files k (expiry_entry k connection s) ≡ session_applied k (entry_of_session k s) }
    ensures may { (k : Kept) (connection : ℕ) (s : SettledSession) → IsConsistent k
        → MayExpireAs k connection s → MaySettleAs k s }
    ensures live { (k : Kept) (connection : ℕ) (s : SettledSession) → IsConsistent k
        → MayExpireAs k connection s → live_limit (session_applied k (entry_of_session k s)) ≡ None }
{}

/// Where contents stand doesn't change whether an entry fits.
pub fn fits_ignore_where_contents_stand()
    ensures { (files : ℕ → List File) (k : Kept) (d e : Entry) → placeless_entry d ≡ placeless_entry e
        → entry_suits files k d ≡ entry_suits files k e }
{}

/// A file whose number is neither among those that go nor among the placed ones stays as it is.
pub fn other_files_stay()
    ensures { (k : Kept) (s : Session) (n : ℕ) → list_any (λ m. m == n) s.gone ≡ false
        → list_any (λ m. m == n) (map active_number s.placed) ≡ false
        → active_of n (session_applied k s).files ≡ active_of n k.files }
{}

/// Where no batch is swapped out, which files a batch would have doesn't matter.
pub fn without_batches_their_files_dont_matter()
    ensures fits { (files : ℕ → List File) (k : Kept) (e : Entry) → k.batches ≡ []
        → entry_suits files k e ≡ entry_suits no_files k e }
    ensures applied { (files : ℕ → List File) (k : Kept) (e : Entry) → k.batches ≡ [] → entry_suits no_files k e ≡ true
        → applied files k e ≡ applied no_files k e }
{}
