// A batch, and the file that spells it.
ghost use Rattle.std.specs.Prelude.{◌≡◌, ◌++◌, OnOk, IfOk};
ghost use Rattle.jam_codec.specs.Format.{Spells, from};
ghost use Rattle.jam_codec.specs.Lists.{behind_one, some_spelled, tail_fits};
ghost use Rattle.jam_codec.specs.Laws.{Longest, SpellsNone};
ghost use Rattle.jam_codec.specs.Refusal.{IfMalformed};
ghost use Rattle.batch_file.specs.BatchFile.{batch_format, schedule_format, scheduled, unscheduled, unscheduled_format};

use crate::costs::{Costs, write_schedule};
use crate::delivery::Deliveries;
use crate::report::Reports;
use crate::unscheduled::Unscheduled;
use gas_ledger::Schedule;
use jam_codec::FileRefusal;
use jam_fields::{Spell, read_file_with_tail};
use std::alloc::{AllocError, Global};

/// A slot with its entropy and gas, and what it brings: reports of work, preimages that are
/// delivered, and what the runs of its services cost where that is not the plain schedule.
#[derive(Drop)]
pub struct Batch {
    pub slot: u32,
    pub entropy: [u8; 32],
    pub gas: u64,
    pub reports: Reports,
    pub preimages: Deliveries,
    pub schedule: Option<Schedule>,
}

fn scheduled(fields: Unscheduled, costs: Option<Costs>) -> Batch
    ensures { result ≡ scheduled (fields, costs) }
{
    Batch {
        slot: fields.slot,
        entropy: fields.entropy,
        gas: fields.gas,
        reports: fields.reports,
        preimages: fields.preimages,
        schedule: match costs {
            Some(costs) => Some(costs.schedule()),
            None => None,
        },
    }
}

/// The batch that all the bytes spell.
///
/// # Errors
/// `Malformed` where they spell none: at the first field that does not spell, or after the batch
/// where bytes are left. `NoMemory`.
pub fn read_batch(alloc: Global, bytes: &[u8]) -> Result<Batch, FileRefusal>
    ensures found { IfOk result (λ batch. Spells batch_format batch bytes.now) }
    ensures refused { IfMalformed result (λ place. SpellsNone batch_format bytes.now) }
    ensures place { IfMalformed result (λ place. Longest batch_format.Run (from 0 bytes.now) place) }
{
    match read_file_with_tail(alloc, bytes) {
        Ok((fields, costs)) => Ok(scheduled(fields, costs)),
        Err(refusal) => Err(refusal),
    }
}

fn write_unscheduled(batch: &Batch, out: &mut Vec<u8>) -> Result<(), AllocError>
    ensures ok { OnOk result (out.new.items ≡ out.old.items ++ unscheduled_format.spell (unscheduled batch.now)) }
    ensures fits { OnOk result (unscheduled_format.Fits (unscheduled batch.now)) }
{
    batch.slot.write(out)?;
    batch.entropy.write(out)?;
    batch.gas.write(out)?;
    batch.reports.write(out)?;
    batch.preimages.write(out)
}

fn write_costs(schedule: &Option<Schedule>, out: &mut Vec<u8>) -> Result<(), AllocError>
    ensures ok { OnOk result (out.new.items ≡ out.old.items ++ some_spelled (behind_one schedule_format) schedule.now) }
    ensures fits { OnOk result (tail_fits (behind_one schedule_format) schedule.now) }
{
    match schedule {
        Some(schedule) => write_schedule(schedule, out),
        None => Ok(()),
    }
}

/// The bytes that spell the batch. Each batch has a spelling, since its parts keep their limits.
///
/// # Errors
/// Want of memory.
pub fn write_batch(alloc: Global, batch: &Batch) -> Result<Vec<u8>, AllocError>
    ensures { IfOk result (λ bytes. Spells batch_format batch.now bytes.items) }
{
    let mut out = Vec::new(alloc);
    write_unscheduled(batch, &mut out)?;
    write_costs(&batch.schedule, &mut out)?;
    Ok(out)
}
