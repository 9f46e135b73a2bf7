// A batch without its schedule, as a field.
ghost use Rattle.std.specs.Prelude.{◌≡◌, OnErr};
ghost use Rattle.jam_codec.specs.Reading.{Reads};
ghost use Rattle.jam_codec.specs.Refusal.{place_of};
ghost use Rattle.batch_file.specs.BatchFile.{unscheduled_format};
ghost use Rattle.batch_file.specs.BatchLaws.{unscheduled_laws};

use crate::delivery::Deliveries;
use crate::report::Reports;
use jam_codec::{Cursor, FileRefusal};
use jam_fields::Field;
use std::alloc::Global;

/// What each batch has.
#[derive(Drop)]
pub struct Unscheduled {
    pub slot: u32,
    pub entropy: [u8; 32],
    pub gas: u64,
    pub reports: Reports,
    pub preimages: Deliveries,
}

impl Field for Unscheduled {
    ghost format = { unscheduled_format };

    fn read(alloc: Global, cursor: &mut Cursor<'_>) -> Result<Unscheduled, FileRefusal> {
        let mut ahead = cursor.ahead();
        let fields = Unscheduled {
            slot: u32::read(alloc, &mut ahead)?,
            entropy: <[u8; 32]>::read(alloc, &mut ahead)?,
            gas: u64::read(alloc, &mut ahead)?,
            reports: Reports::read(alloc, &mut ahead)?,
            preimages: Deliveries::read(alloc, &mut ahead)?,
        };
        *cursor = ahead;
        Ok(fields)
    }

    ghost is_format = { unscheduled_laws };
}
