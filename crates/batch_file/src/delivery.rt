// Preimages that are delivered to services.
ghost use Rattle.std.specs.Prelude.{◌≡◌, ◌++◌, OnOk, OnErr};
ghost use Rattle.std.specs.Io.{StartsWith};
ghost use Rattle.jam_codec.specs.Reading.{Reads};
ghost use Rattle.jam_codec.specs.Refusal.{place_of, IfMalformed};
ghost use Rattle.jam_codec.specs.Laws.{SpellsNoneAt};
ghost use Rattle.batch_file.specs.BatchFile.{delivery_format, deliveries_format};
ghost use Rattle.batch_file.specs.BatchLaws.{delivery_laws, deliveries_laws};

use jam_codec::{Cursor, FileRefusal};
use jam_fields::{Blob, Field, Spell, read_list, write_list};
use std::alloc::{AllocError, Global};
use std::marker::Model;

/// A preimage that is delivered to a service.
#[derive(Drop)]
pub struct Delivery {
    pub service: u32,
    /// The preimage.
    pub bytes: Blob,
}

impl Field for Delivery {
    ghost format = { delivery_format };

    fn read(alloc: Global, cursor: &mut Cursor<'_>) -> Result<Delivery, FileRefusal> {
        let mut ahead = cursor.ahead();
        let service = u32::read(alloc, &mut ahead)?;
        let bytes = Blob::read(alloc, &mut ahead)?;
        *cursor = ahead;
        Ok(Delivery { service, bytes })
    }

    ghost is_format = { delivery_laws };
}

impl Spell for Delivery {
    fn write(&self, out: &mut Vec<u8>) -> Result<(), AllocError> {
        self.service.write(out)?;
        self.bytes.write(out)
    }
}

/// The delivery at the cursor, which stands after it then.
///
/// # Errors
/// `Malformed` where none spells there, at the first field that does not; `NoMemory`. The cursor
/// stays where it was then.
pub fn take_delivery(alloc: Global, cursor: &mut Cursor<'_>) -> Result<Delivery, FileRefusal>
    ensures exact { Reads place_of (λ x. x) result cursor.new (delivery_format.read cursor.old) }
    ensures none { IfMalformed result (λ place. SpellsNoneAt delivery_format cursor.old) }
    ensures err { OnErr result (cursor.new ≡ cursor.old) }
{
    Delivery::read(alloc, cursor)
}

/// Adds the spelling of the delivery.
///
/// # Errors
/// Want of memory; then nothing was added.
pub fn push_delivery(out: &mut Vec<u8>, delivery: &Delivery) -> Result<(), AllocError>
    ensures ok { OnOk result (out.new.items ≡ out.old.items ++ delivery_format.spell delivery.now) }
    ensures fits { OnOk result (delivery_format.Fits delivery.now) }
    ensures err { OnErr result (out.new.items ≡ out.old.items) }
{
    let mark = out.len();
    let written = delivery.write(out);
    if written.is_err() {
        out.truncate(mark);
    }
    written
}

/// The deliveries of a batch, in their order.
#[derive(Drop)]
pub struct Deliveries {
    deliveries: Vec<Delivery>,
}

impl Model for Deliveries {
    ghost use Rattle.std.specs.Prelude.{List};
    ghost use Rattle.batch_file.specs.declared.delivery.Delivery.{Delivery};

    ghost Value = { List Delivery };

    ghost view = { λ d. d.deliveries.items };
}

impl Deliveries {
    /// These deliveries.
    pub fn new(deliveries: Vec<Delivery>) -> Deliveries
        ensures { result ≡ deliveries.items }
    {
        Deliveries { deliveries }
    }

    /// The deliveries.
    pub fn as_slice(&self) -> &[Delivery]
        ensures { result.now ≡ self.now }
    {
        self.deliveries.as_slice()
    }

    /// The deliveries, of which the vector is the owner.
    pub fn into_vec(self) -> Vec<Delivery>
        ensures { result.items ≡ self }
    {
        self.deliveries
    }
}

impl Field for Deliveries {
    ghost format = { deliveries_format };

    fn read(alloc: Global, cursor: &mut Cursor<'_>) -> Result<Deliveries, FileRefusal> {
        let deliveries = read_list(alloc, cursor, u64::MAX)?;
        Ok(Deliveries { deliveries })
    }

    ghost is_format = { deliveries_laws };
}

impl Spell for Deliveries {
    fn write(&self, out: &mut Vec<u8>) -> Result<(), AllocError> {
        write_list(self.as_slice(), u64::MAX, out)
    }
}
