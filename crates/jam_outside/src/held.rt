// Files held in memory, as a map of the program.
ghost use Rattle.std.specs.FinMap as fin;
ghost use Rattle.std.specs.Prelude.{◌≡◌, ◌-◌, length, min, OnOk, OnErr, IsErrOf};
ghost use Rattle.jam_outside.specs.Files.{IsPiece, files_of};

use crate::OutsideError;
use std::alloc::Global;
use std::collections::BTreeMap;

// Copies as many of the file's bytes as there are from the place on and fit, and answers how many.
pub fn copy_part(file: &[u8], place: u64, buf: &mut [u8]) -> usize
    ensures count { result ≡ min (length buf.new) (length file.now - place) }
    ensures gives { IsPiece file.now place buf.new result }
{
    let start = file.len().min(place as usize);
    let left = &file[start..];
    let count = left.len().min(buf.len());
    buf[..count].copy_from_slice(&left[..count]);
    count
}

// Gives a name these bytes. It fails for want of memory alone.
pub fn put_file(
    alloc: Global,
    held: &mut BTreeMap<String, Vec<u8>>,
    name: &str,
    bytes: &[u8],
) -> Result<(), OutsideError>
    ensures stored { OnOk result (files_of held.new ≡ fin.insert (files_of held.old) name.now bytes.now) }
    ensures err { OnErr result (files_of held.new ≡ files_of held.old) }
    ensures not_failed { ¬ IsErrOf result OutsideError.Failed }
{
    let key = String::from_str(alloc, name)?;
    let value = Vec::from_slice(alloc, bytes)?;
    held.insert(key, value)?;
    Ok(())
}
