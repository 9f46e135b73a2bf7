// A schedule, as a field.
ghost use Rattle.std.specs.Prelude.{◌≡◌, ◌≤◌, ◌<◌, ◌*◌, ◌^◌, ◌++◌, nat_le, OnOk, OnErr, IfOk};
ghost use Rattle.jam_codec.specs.Format.{fixed_where};
ghost use Rattle.jam_codec.specs.Lists.{behind_one};
ghost use Rattle.jam_codec.specs.Reading.{Reads};
ghost use Rattle.jam_codec.specs.Refusal.{place_of};
ghost use Rattle.batch_file.specs.BatchFile.{costs_format, schedule_format};
ghost use Rattle.batch_file.specs.BatchLaws.{schedule_laws};

use gas_ledger::Schedule;
use jam_codec::{Cursor, FileRefusal, push_fixed};
use jam_fields::{Field, write_items};
use std::alloc::{AllocError, Global};
use std::marker::Model;

/// A schedule, which is read as a field.
#[derive(Drop)]
pub struct Costs {
    schedule: Schedule,
}

impl Model for Costs {
    ghost use Rattle.gas_ledger.specs.Schedule.{Schedule, coded_schedule};

    ghost Value = { Schedule };

    ghost coded = { coded_schedule };

    ghost view = { λ c. c.schedule };
}

impl Costs {
    /// The schedule.
    pub fn schedule(self) -> Schedule
        ensures { result ≡ self }
    {
        self.schedule
    }
}

// The number in the next bytes, where it is at least so much.
fn read_cost(cursor: &mut Cursor<'_>, width: u8, least: u64) -> Result<u64, FileRefusal>
    requires { width ≤ 8 }
    ensures exact { Reads place_of (λ x. x) result cursor.new ((fixed_where width (nat_le least)).read cursor.old) }
    ensures below { IfOk result (λ x. x < 2 ^ (8 * width)) }
{
    let place = cursor.place();
    let cost = cursor.fixed(width)?;
    if cost < least {
        return Err(FileRefusal::Malformed { place });
    }
    Ok(cost)
}

fn read_forms(cursor: &mut Cursor<'_>) -> Result<[u8; 13], FileRefusal>
    ensures exact { Reads place_of (λ forms. forms) result cursor.new ((costs_format 1 1 13).read cursor.old) }
{
    let mut forms = [1; 13];
    for form in 0..13usize {
        forms[form] = read_cost(cursor, 1, 1)? as u8;
    }
    Ok(forms)
}

fn read_calls(cursor: &mut Cursor<'_>) -> Result<[u16; 28], FileRefusal>
    ensures exact { Reads place_of (λ calls. calls) result cursor.new ((costs_format 2 10 28).read cursor.old) }
{
    let mut calls = [10; 28];
    for call in 0..28usize {
        calls[call] = read_cost(cursor, 2, 10)? as u16;
    }
    Ok(calls)
}

impl Field for Costs {
    ghost format = { schedule_format };

    fn read(_alloc: Global, cursor: &mut Cursor<'_>) -> Result<Costs, FileRefusal> {
        let mut ahead = cursor.ahead();
        let forms = read_forms(&mut ahead)?;
        let calls = read_calls(&mut ahead)?;
        match Schedule::of(forms, calls) {
            Some(schedule) => {
                *cursor = ahead;
                Ok(Costs { schedule })
            }
            None => Err(FileRefusal::Malformed {
                place: cursor.place(),
            }),
        }
    }

    ghost is_format = { schedule_laws };
}

/// Adds the byte 1 and the spelling of the schedule.
///
/// # Errors
/// Want of memory; a part may have been added then.
pub fn write_schedule(schedule: &Schedule, out: &mut Vec<u8>) -> Result<(), AllocError>
    ensures ok { OnOk result (out.new.items ≡ out.old.items ++ (behind_one schedule_format).spell schedule.now) }
    ensures fits { OnOk result ((behind_one schedule_format).Fits schedule.now) }
{
    push_fixed(out, 1, 1)?;
    write_items(schedule.forms(), out)?;
    write_items(schedule.calls(), out)
}
