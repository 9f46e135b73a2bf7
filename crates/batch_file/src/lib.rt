//! The file of a batch: reports of work, preimages that are delivered, and a schedule.
#![tactic(auto)]

mod batch;
mod costs;
mod delivery;
mod item;
mod laws;
mod report;
mod result;
mod unscheduled;

pub use batch::{Batch, read_batch, write_batch};
pub use delivery::{Deliveries, Delivery, push_delivery, take_delivery};
pub use item::{ITEM_LIMIT, ReportItem, ReportItems};
pub use laws::batch_laws;
pub use report::{REPORT_LIMIT, Report, Reports, push_report, take_report};
pub use result::WorkResult;
