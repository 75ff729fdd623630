//! The files of a batch that is read as far as some block.
ghost use Rattle.std.specs.Prelude.{◌≡◌, ◌⊎◌, ◌+◌, List, ◌∷◌, ◌++◌, suc, length, [], is_ok, Ok, true, false, IfOk, OnOk, IsErrOf, IsTrue, Some, None};
ghost use Rattle.flowfile_record.specs.Reading.{whole};
ghost use Rattle.flowfile_record.specs.declared.flow_file.FlowFile.{FlowFile as TheFile};
ghost use Rattle.record_codec.specs.ActiveFile.{active_file_at, active_front_at, IsActiveFile};
ghost use Rattle.record_codec.specs.SnapshotReading.{ending_at};
ghost use Rattle.swap_store.specs.Memory.{BatchPartTakes};
ghost use Rattle.swap_store.specs.Reading.{Adds, Ends, file_step, end_step, step_in};
ghost use Rattle.swap_store.specs.Taken.{AreTakenFiles, step_is};
ghost use Rattle.swap_store.specs.declared.taken.Unfit.TheVariants as unfit;

use flowfile_record::{ActiveFile, CodecError, FlowFile};
use record_codec::{SnapshotKind, read_active_file, read_snapshot_end};
use std::alloc::{AllocError, Global};

/// Why a block doesn't join those before it.
#[derive(Drop)]
pub enum Unfit {
    Memory,
    /// It has no reading, or doesn't fit those before it.
    Form,
}

impl From<AllocError> for Unfit {
    ghost from_gives = { λ _ error. error ≡ unfit.Memory };

    fn from(_: AllocError) -> Unfit {
        Unfit::Memory
    }
}

/// The files up to some block.
#[derive(Drop)]
pub struct Taken {
    pub files: Vec<FlowFile>,
    /// The number of the last of them, 0 for none.
    last: u64,
}

impl Taken {
    /// No files yet.
    pub fn new(alloc: Global) -> Taken
        ensures none { result.files.items ≡ [] }
        ensures taken { AreTakenFiles result }
    {
        Taken {
            files: Vec::new(alloc),
            last: 0,
        }
    }

    /// A block joins those before it. Answers whether it is the End.
    pub fn take_block(&mut self, alloc: Global, kind: u8, payload: &[u8]) -> Result<bool, Unfit>
        requires { AreTakenFiles self.old }
        ensures step { IfOk result (λ ended. step_in self.old.files.items kind payload.now
            ≡ Some (step_is ended self.new.files.items)) }
        ensures ended { IfOk result (λ ended. IsTrue ended → self.new.files.items ≡ self.old.files.items) }
        ensures more { IfOk result (λ ended. ended ≡ false
            → length self.new.files.items ≡ suc (length self.old.files.items)) }
        ensures taken { OnOk result (AreTakenFiles self.new) }
        ensures unfit { IsErrOf result Unfit.Form → step_in self.old.files.items kind payload.now ≡ None }
        ensures memory { IsErrOf result Unfit.Memory → BatchPartTakes self.old.files.items kind payload.now }
    {
        match SnapshotKind::from_code(kind) {
            Some(SnapshotKind::File) => self.take_file(alloc, payload),
            Some(SnapshotKind::End) => self.take_end(payload),
            Some(SnapshotKind::Head) => Err(Unfit::Form),
            Some(SnapshotKind::Batch) => Err(Unfit::Form),
            None => Err(Unfit::Form),
        }
    }

    fn take_file(&mut self, alloc: Global, payload: &[u8]) -> Result<bool, Unfit>
        requires { AreTakenFiles self.old }
        ensures step { IfOk result (λ ended. (ended ≡ false)
            × (file_step self.old.files.items (whole active_file_at payload.now)
            ≡ Some (Adds self.new.files.items))) }
        ensures more { OnOk result (length self.new.files.items ≡ suc (length self.old.files.items)) }
        ensures taken { OnOk result (AreTakenFiles self.new) }
        ensures unfit { IsErrOf result Unfit.Form
            → file_step self.old.files.items (whole active_file_at payload.now) ≡ None }
        ensures memory { IsErrOf result Unfit.Memory → IsTrue (is_ok (active_front_at payload.now))
            ⊎ ((more : List TheFile)
            × (file_step self.old.files.items (whole active_file_at payload.now) ≡ Some (Adds more))) }
    {
        match read_active_file(alloc, payload) {
            Ok(active) => self.add(active),
            Err(CodecError::Memory) => Err(Unfit::Memory),
            Err(CodecError::Form { .. }) => Err(Unfit::Form),
        }
    }

    // A file joins those before it.
    fn add(&mut self, active: ActiveFile) -> Result<bool, Unfit>
        requires file { IsActiveFile active }
        requires taken { AreTakenFiles self.old }
        ensures step { IfOk result (λ ended. (ended ≡ false)
            × (file_step self.old.files.items (Ok active) ≡ Some (Adds self.new.files.items))) }
        ensures more { OnOk result (length self.new.files.items ≡ suc (length self.old.files.items)) }
        ensures taken { OnOk result (AreTakenFiles self.new) }
        ensures unfit { IsErrOf result Unfit.Form → file_step self.old.files.items (Ok active) ≡ None }
        ensures memory { IsErrOf result Unfit.Memory → file_step self.old.files.items (Ok active)
            ≡ Some (Adds (self.old.files.items ++ active.file ∷ [])) }
    {
        let number = active.file.number;
        if active.connection != 0 || number <= self.last {
            return Err(Unfit::Form);
        }
        push_file(&mut self.files, active.file)?;
        self.last = number;
        Ok(false)
    }

    fn take_end(&self, payload: &[u8]) -> Result<bool, Unfit>
        ensures step { IfOk result (λ ended. (ended ≡ true)
            × (end_step self.now.files.items (whole ending_at payload.now) ≡ Some Ends)) }
        ensures unfit { IsErrOf result Unfit.Form
            → end_step self.now.files.items (whole ending_at payload.now) ≡ None }
        ensures kinds { IsErrOf result Unfit.Memory → ⊥ }
    {
        match read_snapshot_end(payload) {
            Ok(blocks) => {
                if blocks != self.files.len() as u64 {
                    return Err(Unfit::Form);
                }
                Ok(true)
            }
            Err(_) => Err(Unfit::Form),
        }
    }
}

// Adds a file behind the others.
fn push_file(files: &mut Vec<FlowFile>, file: FlowFile) -> Result<(), AllocError>
    ensures { OnOk result (files.new.items ≡ files.old.items ++ file ∷ []) }
{
    files.push(file)?;
    Ok(())
}
