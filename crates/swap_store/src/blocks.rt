//! The files of a batch with their encoded blocks.
ghost use Rattle.std.specs.Prelude.{◌≡◌, ◌++◌, All, length, IfOk, OnOk};
ghost use Rattle.std.specs.List.{flat_map};
ghost use Rattle.record_codec.specs.FileEncoding.{IsFlowFile};
ghost use Rattle.swap_store.specs.Batch.{batch_bytes, swapped_block, closing_block, IsSwapBatch};

use flowfile_record::FlowFile;
use record_codec::{SnapshotKind, append_block, write_active_file, write_snapshot_end};
use std::alloc::{AllocError, Global};
use std::marker::Model;

/// The files of a batch, which ascend by number, with their encoded blocks and the End behind them.
#[derive(Debug, Drop)]
pub struct FileBlocks<'a> {
    files: &'a [FlowFile],
    bytes: Vec<u8>,
}

impl<'a> Model for FileBlocks<'a> {
    ghost use Rattle.std.specs.Prelude.{List};
    ghost use Rattle.std.specs.Coded.{coded_list};
    ghost use Rattle.flowfile_record.specs.StoredCode.{file_code};
    ghost use Rattle.flowfile_record.specs.declared.flow_file.FlowFile.{FlowFile as File};
    ghost use Rattle.swap_store.specs.Batch.{AreBatchBytes};

    ghost Value = { List File };

    ghost coded = { coded_list file_code };

    ghost view = { λ blocks. blocks.files.now };

    ghost invariant = { λ blocks. AreBatchBytes blocks.files.now blocks.bytes.items };
}

impl<'a> FileBlocks<'a> {
    /// The blocks of these files. All memory that `write_batch` needs is taken here.
    pub fn new(alloc: Global, files: &'a [FlowFile]) -> Result<FileBlocks<'a>, AllocError>
        requires { IsSwapBatch files.now }
        ensures { IfOk result (λ blocks. blocks ≡ files.now) }
    {
        let mut bytes = Vec::new(alloc);
        let mut payload = Vec::new(alloc);
        put_files(&mut bytes, &mut payload, files)?;
        put_end(&mut bytes, &mut payload, files.len() as u64)?;
        Ok(FileBlocks { files, bytes })
    }

    /// The bytes of the batch.
    pub(crate) fn bytes(&self) -> &[u8]
        ensures bytes { result.now ≡ batch_bytes self.now }
        ensures batch { IsSwapBatch self.now }
    {
        self.bytes.as_slice()
    }
}

// Appends the blocks of these files.
fn put_files(
    bytes: &mut Vec<u8>,
    payload: &mut Vec<u8>,
    files: &[FlowFile],
) -> Result<(), AllocError>
    requires { All IsFlowFile files.now }
    ensures { OnOk result (bytes.new.items ≡ bytes.old.items ++ flat_map swapped_block files.now) }
{
    for file in files {
        put_file(bytes, payload, file)?;
    }
    Ok(())
}

// Appends the block of this file.
fn put_file(bytes: &mut Vec<u8>, payload: &mut Vec<u8>, file: &FlowFile) -> Result<(), AllocError>
    requires { IsFlowFile file.now }
    ensures { OnOk result (bytes.new.items ≡ bytes.old.items ++ swapped_block file.now) }
{
    payload.clear();
    write_active_file(payload, 0, file)?;
    append_block(bytes, SnapshotKind::File.code(), payload.as_slice())
}

// Appends the End behind so many blocks.
fn put_end(bytes: &mut Vec<u8>, payload: &mut Vec<u8>, blocks: u64) -> Result<(), AllocError>
    ensures { OnOk result (bytes.new.items ≡ bytes.old.items ++ closing_block blocks) }
{
    payload.clear();
    write_snapshot_end(payload, blocks)?;
    append_block(bytes, SnapshotKind::End.code(), payload.as_slice())
}
