// Items of a report.
ghost use Rattle.std.specs.Prelude.{◌≡◌, ◌≤◌, ◌++◌, OnOk, OnErr, length};
ghost use Rattle.std.specs.Io.{StartsWith};
ghost use Rattle.jam_codec.specs.Reading.{Reads};
ghost use Rattle.jam_codec.specs.Refusal.{place_of};
ghost use Rattle.batch_file.specs.Limits.{item_limit};

use crate::result::WorkResult;
use jam_codec::{Cursor, FileRefusal};
use jam_fields::{Field, Spell, read_list, write_list};
use std::alloc::{AllocError, Global};
use std::marker::Model;

/// The most items of a report.
pub const ITEM_LIMIT: u64 = 16;

/// An item of work that a service was given, and what became of it.
#[derive(Drop)]
pub struct ReportItem {
    pub service: u32,
    pub gas: u64,
    pub payload_hash: [u8; 32],
    pub result: WorkResult,
}

impl Field for ReportItem {
    ghost use Rattle.batch_file.specs.BatchFile.{item_format};
    ghost use Rattle.batch_file.specs.BatchLaws.{item_laws};

    ghost format = { item_format };

    fn read(alloc: Global, cursor: &mut Cursor<'_>) -> Result<ReportItem, FileRefusal> {
        let mut ahead = cursor.ahead();
        let item = ReportItem {
            service: u32::read(alloc, &mut ahead)?,
            gas: u64::read(alloc, &mut ahead)?,
            payload_hash: <[u8; 32]>::read(alloc, &mut ahead)?,
            result: WorkResult::read(alloc, &mut ahead)?,
        };
        *cursor = ahead;
        Ok(item)
    }

    ghost is_format = { item_laws };
}

impl Spell for ReportItem {
    fn write(&self, out: &mut Vec<u8>) -> Result<(), AllocError> {
        self.service.write(out)?;
        self.gas.write(out)?;
        self.payload_hash.write(out)?;
        self.result.write(out)
    }
}

/// The items of a report, which are at most `ITEM_LIMIT`.
#[derive(Drop)]
pub struct ReportItems {
    items: Vec<ReportItem>,
}

impl Model for ReportItems {
    ghost use Rattle.std.specs.Prelude.{List, ◌≤◌, length};
    ghost use Rattle.batch_file.specs.Limits.{item_limit};
    ghost use Rattle.batch_file.specs.declared.item.ReportItem.{ReportItem};

    ghost Value = { List ReportItem };

    ghost view = { λ r. r.items.items };

    ghost invariant = { λ r. length r.items.items ≤ item_limit };
}

impl ReportItems {
    /// These items.
    pub fn new(items: Vec<ReportItem>) -> ReportItems
        requires { length items.items ≤ item_limit }
        ensures { result ≡ items.items }
    {
        ReportItems { items }
    }

    /// The items.
    pub fn as_slice(&self) -> &[ReportItem]
        ensures value { result.now ≡ self.now }
        ensures within { length self.now ≤ item_limit }
    {
        self.items.as_slice()
    }

    /// The items, of which the vector is the owner.
    pub fn into_vec(self) -> Vec<ReportItem>
        ensures value { result.items ≡ self }
        ensures within { length self ≤ item_limit }
    {
        self.items
    }
}

impl Field for ReportItems {
    ghost use Rattle.batch_file.specs.BatchFile.{items_format};
    ghost use Rattle.batch_file.specs.BatchLaws.{items_laws};

    ghost format = { items_format };

    fn read(alloc: Global, cursor: &mut Cursor<'_>) -> Result<ReportItems, FileRefusal> {
        let items = read_list(alloc, cursor, ITEM_LIMIT)?;
        Ok(ReportItems { items })
    }

    ghost is_format = { items_laws };
}

impl Spell for ReportItems {
    fn write(&self, out: &mut Vec<u8>) -> Result<(), AllocError> {
        write_list(self.as_slice(), ITEM_LIMIT, out)
    }
}
