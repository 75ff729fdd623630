//! Files in memory, by their names.
ghost use Rattle.std.specs.Prelude.{◌≡◌, [], map, OnOk, position, bytes_eq};
ghost use Rattle.world_io.specs.Memory.{file_of};

use crate::Name;
use std::alloc::AllocError;

/// Where the first file of that name stands.
pub fn place_of(files: &[(Name, Vec<u8>)], name: &Name) -> Option<usize>
    ensures { result ≡ position (λ file. bytes_eq file.0 name.now) files.now }
{
    files.iter().position(|file| file.0 == *name)
}

/// Fills an empty list with the names of the files. Where there is no memory, it has some of them.
pub fn copy_names(files: &[(Name, Vec<u8>)], names: &mut Vec<Name>) -> Result<(), AllocError>
    requires { names.old.items ≡ [] }
    ensures { OnOk result (names.new.items ≡ map (λ file. file.name) (map file_of files.now)) }
{
    for (name, _) in files {
        names.push(name.clone()?)?;
    }
    Ok(())
}
