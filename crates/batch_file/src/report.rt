// Reports of work.
ghost use Rattle.std.specs.Prelude.{◌≡◌, ◌≤◌, ◌++◌, OnOk, OnErr, length};
ghost use Rattle.std.specs.Io.{StartsWith};
ghost use Rattle.jam_codec.specs.Reading.{Reads};
ghost use Rattle.jam_codec.specs.Refusal.{place_of, IfMalformed};
ghost use Rattle.jam_codec.specs.Laws.{SpellsNoneAt};
ghost use Rattle.batch_file.specs.BatchFile.{report_format};
ghost use Rattle.batch_file.specs.Limits.{report_limit};

use crate::item::ReportItems;
use jam_codec::{Cursor, FileRefusal};
use jam_fields::{Field, Spell, read_list, write_list};
use std::alloc::{AllocError, Global};
use std::marker::Model;

/// The most reports of a batch.
pub const REPORT_LIMIT: u64 = 0;

/// What became of a package of work, item by item.
#[derive(Drop)]
pub struct Report {
    /// The hash of the package.
    pub package: [u8; 32],
    pub items: ReportItems,
}

impl Field for Report {
    ghost use Rattle.batch_file.specs.BatchFile.{report_format};
    ghost use Rattle.batch_file.specs.BatchLaws.{report_laws};

    ghost format = { report_format };

    fn read(alloc: Global, cursor: &mut Cursor<'_>) -> Result<Report, FileRefusal> {
        let mut ahead = cursor.ahead();
        let package = <[u8; 32]>::read(alloc, &mut ahead)?;
        let items = ReportItems::read(alloc, &mut ahead)?;
        *cursor = ahead;
        Ok(Report { package, items })
    }

    ghost is_format = { report_laws };
}

impl Spell for Report {
    fn write(&self, out: &mut Vec<u8>) -> Result<(), AllocError> {
        self.package.write(out)?;
        self.items.write(out)
    }
}

/// The report at the cursor, which stands after it then.
///
/// # Errors
/// `Malformed` where none spells there, at the first field that does not; `NoMemory`. The cursor
/// stays where it was then.
pub fn take_report(alloc: Global, cursor: &mut Cursor<'_>) -> Result<Report, FileRefusal>
    ensures exact { Reads place_of (λ x. x) result cursor.new (report_format.read cursor.old) }
    ensures none { IfMalformed result (λ place. SpellsNoneAt report_format cursor.old) }
    ensures err { OnErr result (cursor.new ≡ cursor.old) }
{
    Report::read(alloc, cursor)
}

/// Adds the spelling of the report.
///
/// # Errors
/// Want of memory; then nothing was added.
pub fn push_report(out: &mut Vec<u8>, report: &Report) -> Result<(), AllocError>
    ensures ok { OnOk result (out.new.items ≡ out.old.items ++ report_format.spell report.now) }
    ensures fits { OnOk result (report_format.Fits report.now) }
    ensures err { OnErr result (out.new.items ≡ out.old.items) }
{
    let mark = out.len();
    let written = report.write(out);
    if written.is_err() {
        out.truncate(mark);
    }
    written
}

/// The reports of a batch, which are at most `REPORT_LIMIT`.
#[derive(Drop)]
pub struct Reports {
    reports: Vec<Report>,
}

impl Model for Reports {
    ghost use Rattle.std.specs.Prelude.{List, ◌≤◌, length};
    ghost use Rattle.batch_file.specs.Limits.{report_limit};
    ghost use Rattle.batch_file.specs.declared.report.Report.{Report};

    ghost Value = { List Report };

    ghost view = { λ r. r.reports.items };

    ghost invariant = { λ r. length r.reports.items ≤ report_limit };
}

impl Reports {
    /// These reports.
    pub fn new(reports: Vec<Report>) -> Reports
        requires { length reports.items ≤ report_limit }
        ensures { result ≡ reports.items }
    {
        Reports { reports }
    }

    /// The reports.
    pub fn as_slice(&self) -> &[Report]
        ensures value { result.now ≡ self.now }
        ensures within { length self.now ≤ report_limit }
    {
        self.reports.as_slice()
    }

    /// The reports, of which the vector is the owner.
    pub fn into_vec(self) -> Vec<Report>
        ensures value { result.items ≡ self }
        ensures within { length self ≤ report_limit }
    {
        self.reports
    }
}

impl Field for Reports {
    ghost use Rattle.batch_file.specs.BatchFile.{reports_format};
    ghost use Rattle.batch_file.specs.BatchLaws.{reports_laws};

    ghost format = { reports_format };

    fn read(alloc: Global, cursor: &mut Cursor<'_>) -> Result<Reports, FileRefusal> {
        let reports = read_list(alloc, cursor, REPORT_LIMIT)?;
        Ok(Reports { reports })
    }

    ghost is_format = { reports_laws };
}

impl Spell for Reports {
    fn write(&self, out: &mut Vec<u8>) -> Result<(), AllocError> {
        write_list(self.as_slice(), REPORT_LIMIT, out)
    }
}
