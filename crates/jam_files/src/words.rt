// The words of the command line.
ghost use Rattle.std.specs.Prelude.{◌≡◌, ◌⊎◌, IfErr};
ghost use Rattle.std.specs.IoError.{error_kind};

use std::alloc::Global;
use std::env::{Env, FillError};
use std::io;
use std::io::ErrorKind;

/// The words after the program's name, which is none of them and may be any bytes.
///
/// # Errors
///
/// `InvalidData` where a word is not UTF-8, and `OutOfMemory` for want of memory.
pub fn words_after_name<E: Env>(env: &E, alloc: Global) -> io::Result<Vec<String>>
    ensures { IfErr result (λ e. (error_kind e ≡ ErrorKind.InvalidData) ⊎ (error_kind e ≡ ErrorKind.OutOfMemory)) }
{
    let mut words = Vec::new(alloc);
    'words: for number in 1..usize::MAX {
        match word_at(env, alloc, number)? {
            Some(word) => words.push(word)?,
            None => return Ok(words),
        }
    }
    Err(io::Error::from(ErrorKind::OutOfMemory))
}

// The word of this number, where there are so many. The room for it is doubled until it fits.
fn word_at<E: Env>(env: &E, alloc: Global, number: usize) -> io::Result<Option<String>>
    ensures { IfErr result (λ e. (error_kind e ≡ ErrorKind.InvalidData) ⊎ (error_kind e ≡ ErrorKind.OutOfMemory)) }
{
    let mut room = 256usize;
    'rooms: for _ in 0..usize::BITS {
        let mut bytes = vec![in alloc; 0u8; room]?;
        match env.arg(number, &mut bytes) {
            Ok(length) => {
                bytes.truncate(length);
                return match String::from_utf8(bytes) {
                    Ok(word) => Ok(Some(word)),
                    Err(_) => Err(io::Error::from(ErrorKind::InvalidData)),
                };
            }
            Err(FillError::NotPresent) => return Ok(None),
            Err(FillError::TooLong) => room = room.saturating_mul(2),
        }
    }
    Err(io::Error::from(ErrorKind::OutOfMemory))
}
