// Transfers of bytes, by calls that may be interrupted and may move less than they are asked to.
ghost use Rattle.std.specs.Prelude.{◌≡◌, ◌≢◌, ◌↔◌, ◌<◌, ◌≤◌, length, take, IsTrue, IfOk, IfErr, OnOk, OnErr};
ghost use Rattle.std.specs.Io.KnownBytes.{Appends, Consumes, IsAtEnd, Keeps};
ghost use Rattle.std.specs.IoError.{error_kind};
ghost use Rattle.jam_files.specs.Transfers.{AppendsPart};

use std::io;
use std::io::{ErrorKind, Read, Write};

fn is_interrupted(error: &io::Error) -> bool
    ensures { IsTrue result ↔ (error_kind error.now ≡ ErrorKind.Interrupted) }
{
    error.kind() == ErrorKind::Interrupted
}

/// Reads once, again as often as the call is interrupted, and answers how many bytes were given.
/// None is the end.
///
/// # Errors
///
/// That of the first read that fails for another cause.
pub fn read_some<R: Read>(from: &mut R, buf: &mut [u8]) -> io::Result<usize>
    ensures bound { IfOk result (λ n. n ≤ length buf.new) }
    ensures bytes { IfOk result (λ n. Consumes (R.remaining from.old) (R.remaining from.new) (take n buf.new)) }
    ensures end { IfOk result (λ n. n ≡ 0 → 0 < length buf.new → IsAtEnd (R.remaining from.new)) }
    ensures none_lost { OnErr result (Keeps (R.remaining from.old) (R.remaining from.new)) }
    ensures tried_again { IfErr result (λ e. error_kind e ≢ ErrorKind.Interrupted) }
{
    'tries: for _ in 0..u64::MAX {
        match from.read(buf) {
            Ok(given) => return Ok(given),
            Err(e) if is_interrupted(&e) => {}
            Err(e) => return Err(e),
        }
    }
    Err(io::Error::from(ErrorKind::TimedOut))
}

// Writes once, again as often as the call is interrupted, and answers how many bytes were taken.
fn write_some<W: Write>(to: &mut W, bytes: &[u8]) -> io::Result<usize>
    ensures bound { IfOk result (λ n. n ≤ length bytes.now) }
    ensures bytes { IfOk result (λ n. Appends (W.contents to.old) (W.contents to.new) (take n bytes.now)) }
    ensures none_written { OnErr result (Keeps (W.contents to.old) (W.contents to.new)) }
    ensures tried_again { IfErr result (λ e. error_kind e ≢ ErrorKind.Interrupted) }
{
    'tries: for _ in 0..u64::MAX {
        match to.write(bytes) {
            Ok(taken) => return Ok(taken),
            Err(e) if is_interrupted(&e) => {}
            Err(e) => return Err(e),
        }
    }
    Err(io::Error::from(ErrorKind::TimedOut))
}

/// Writes all of the bytes, going on where a call is interrupted.
///
/// # Errors
///
/// That of the first write that fails for another cause; `WriteZero` where a write takes nothing. A
/// prefix was written then.
pub fn put_all<W: Write>(to: &mut W, bytes: &[u8]) -> io::Result<()>
    ensures all { OnOk result (Appends (W.contents to.old) (W.contents to.new) bytes.now) }
    ensures part { OnErr result (AppendsPart (W.contents to.old) (W.contents to.new) bytes.now) }
    ensures tried_again { IfErr result (λ e. error_kind e ≢ ErrorKind.Interrupted) }
{
    let mut done = 0;
    'writes: while done < bytes.len() {
        let taken = write_some(to, &bytes[done..])?;
        if taken == 0 {
            return Err(io::Error::from(ErrorKind::WriteZero));
        }
        done += taken;
    }
    Ok(())
}
