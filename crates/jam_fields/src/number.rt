// Numbers of a fixed width, naturals and hashes.
ghost use Rattle.std.specs.Prelude.{◌≡◌, ◌≤◌, ◌++◌, OnOk, OnErr, IfOk, IfErr};
ghost use Rattle.std.specs.Io.{StartsWith};
ghost use Rattle.std.specs.Option.{option_copied};
ghost use Rattle.std.specs.Ordering.{nat_cmp};
ghost use Rattle.jam_codec.specs.Format.{any, natural_where, fixed_where, bytes_where};
ghost use Rattle.jam_codec.specs.Lists.{number_after, follows, up_to};
ghost use Rattle.jam_codec.specs.FormatLaws.{fixed_laws, bytes_laws, number_after_laws};
ghost use Rattle.jam_codec.specs.Reading.{Reads};
ghost use Rattle.jam_codec.specs.Refusal.{place_of};
ghost use Rattle.jam_codec.specs.declared.refusal.FileRefusal.TheVariants.{Malformed};

use crate::field::{Field, Spell};
use crate::row::Row;
use jam_codec::{Cursor, FileRefusal, push_fixed};
use std::alloc::{AllocError, Global};

/// The natural at the cursor, where it is no more than a limit.
///
/// # Errors
/// `Malformed` where none is spelled, or the one that is goes beyond the limit. The cursor stays
/// where it was then.
pub fn read_natural(cursor: &mut Cursor<'_>, limit: u64) -> Result<u64, FileRefusal>
    ensures exact { Reads place_of (λ x. x) result cursor.new ((natural_where (up_to limit)).read cursor.old) }
    ensures within { IfOk result (λ x. x ≤ limit) }
    ensures malformed { IfErr result (λ e. e ≡ Malformed cursor.old.place) }
    ensures err { OnErr result (cursor.new ≡ cursor.old) }
{
    let mut ahead = cursor.ahead();
    let number = ahead.natural()?;
    if number > limit {
        return Err(FileRefusal::Malformed {
            place: cursor.place(),
        });
    }
    *cursor = ahead;
    Ok(number)
}

impl Field for u8 {
    ghost format = { fixed_where 1 any };

    fn read(_alloc: Global, cursor: &mut Cursor<'_>) -> Result<u8, FileRefusal>
        ensures exact { Reads place_of (λ x. x) result cursor.new ((fixed_where 1 any).read cursor.old) }
        ensures malformed { IfErr result (λ e. e ≡ Malformed cursor.old.place) }
        ensures err { OnErr result (cursor.new ≡ cursor.old) }
    {
        Ok(cursor.fixed(1)? as u8)
    }

    ghost is_format = { fixed_laws 1 any };
}

impl Spell for u8 {
    fn write(&self, out: &mut Vec<u8>) -> Result<(), AllocError> {
        push_fixed(out, 1, u64::from(*self))
    }
}

impl Field for u16 {
    ghost format = { fixed_where 2 any };

    fn read(_alloc: Global, cursor: &mut Cursor<'_>) -> Result<u16, FileRefusal>
        ensures exact { Reads place_of (λ x. x) result cursor.new ((fixed_where 2 any).read cursor.old) }
        ensures malformed { IfErr result (λ e. e ≡ Malformed cursor.old.place) }
        ensures err { OnErr result (cursor.new ≡ cursor.old) }
    {
        Ok(cursor.fixed(2)? as u16)
    }

    ghost is_format = { fixed_laws 2 any };
}

impl Spell for u16 {
    fn write(&self, out: &mut Vec<u8>) -> Result<(), AllocError> {
        push_fixed(out, 2, u64::from(*self))
    }
}

impl Field for u32 {
    ghost format = { fixed_where 4 any };

    fn read(_alloc: Global, cursor: &mut Cursor<'_>) -> Result<u32, FileRefusal>
        ensures exact { Reads place_of (λ x. x) result cursor.new ((fixed_where 4 any).read cursor.old) }
        ensures malformed { IfErr result (λ e. e ≡ Malformed cursor.old.place) }
        ensures err { OnErr result (cursor.new ≡ cursor.old) }
    {
        Ok(cursor.fixed(4)? as u32)
    }

    ghost is_format = { fixed_laws 4 any };
}

impl Spell for u32 {
    fn write(&self, out: &mut Vec<u8>) -> Result<(), AllocError> {
        push_fixed(out, 4, u64::from(*self))
    }
}

impl Field for u64 {
    ghost format = { fixed_where 8 any };

    fn read(_alloc: Global, cursor: &mut Cursor<'_>) -> Result<u64, FileRefusal>
        ensures exact { Reads place_of (λ x. x) result cursor.new ((fixed_where 8 any).read cursor.old) }
        ensures malformed { IfErr result (λ e. e ≡ Malformed cursor.old.place) }
        ensures err { OnErr result (cursor.new ≡ cursor.old) }
    {
        Ok(cursor.fixed(8)?)
    }

    ghost is_format = { fixed_laws 8 any };
}

impl Spell for u64 {
    fn write(&self, out: &mut Vec<u8>) -> Result<(), AllocError> {
        push_fixed(out, 8, *self)
    }
}

impl Field for [u8; 32] {
    ghost format = { bytes_where 32 any };

    fn read(_alloc: Global, cursor: &mut Cursor<'_>) -> Result<[u8; 32], FileRefusal>
        ensures exact { Reads place_of (λ x. x) result cursor.new ((bytes_where 32 any).read cursor.old) }
        ensures malformed { IfErr result (λ e. e ≡ Malformed cursor.old.place) }
        ensures err { OnErr result (cursor.new ≡ cursor.old) }
    {
        let mut bytes = [0; 32];
        bytes.copy_from_slice(cursor.bytes(32)?);
        Ok(bytes)
    }

    ghost is_format = { bytes_laws 32 any };
}

impl Spell for [u8; 32] {
    fn write(&self, out: &mut Vec<u8>) -> Result<(), AllocError> {
        out.extend_from_slice(self)
    }
}

fn is_above(last: Option<&u32>, number: u32) -> bool
    ensures { result ≡ follows nat_cmp (option_copied last.entry) number }
{
    match last {
        None => true,
        Some(last) => *last < number,
    }
}

impl Row for u32 {
    ghost after = { number_after 4 };

    fn read_after(
        _alloc: Global,
        cursor: &mut Cursor<'_>,
        last: Option<&u32>,
    ) -> Result<u32, FileRefusal>
        ensures exact { Reads place_of (λ x. x) result cursor.new ((number_after 4 (option_copied last.entry)).read cursor.old) }
        ensures malformed { IfErr result (λ e. e ≡ Malformed cursor.old.place) }
        ensures err { OnErr result (cursor.new ≡ cursor.old) }
    {
        let mut ahead = cursor.ahead();
        let number = ahead.fixed(4)? as u32;
        if !is_above(last, number) {
            return Err(FileRefusal::Malformed {
                place: cursor.place(),
            });
        }
        *cursor = ahead;
        Ok(number)
    }

    ghost is_format_after = { number_after_laws 4 };
}
