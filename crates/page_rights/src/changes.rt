// Runs made of others, of whose pages a range is changed.
ghost use Rattle.std.specs.Prelude.{◌≡◌, ◌+◌, ◌^◌, ◌≤◌, IfOk};
ghost use Rattle.page_rights.specs.PageRights.{granted, lifted_range};
ghost use Rattle.page_rights.specs.RunList.{rights_of_runs};

use crate::parts::{Run, append, copy};
use crate::rights::{Change, Rights};
use std::alloc::{AllocError, Global};

const PAGES: u32 = 1 << 20;

/// Runs where each page of the range has these rights.
pub fn with_rights(
    alloc: Global,
    runs: &[Run],
    first: u32,
    count: u32,
    rights: Rights,
) -> Result<Vec<Run>, AllocError>
    requires { first + count ≤ 2 ^ 20 }
    ensures { IfOk result (λ out. rights_of_runs out.items ≡ granted (rights_of_runs runs.now) first count rights) }
{
    let end = first + count;
    let mut out = Vec::new(alloc);
    copy(runs, 0, first, Change::Keep, &mut out)?;
    append(&mut out, count, rights)?;
    copy(runs, end, PAGES - end, Change::Keep, &mut out)?;
    Ok(out)
}

/// Runs where each page of the range is lifted.
pub fn with_lifted(
    alloc: Global,
    runs: &[Run],
    first: u32,
    count: u32,
) -> Result<Vec<Run>, AllocError>
    requires { first + count ≤ 2 ^ 20 }
    ensures { IfOk result (λ out. rights_of_runs out.items ≡ lifted_range (rights_of_runs runs.now) first count) }
{
    let end = first + count;
    let mut out = Vec::new(alloc);
    copy(runs, 0, first, Change::Keep, &mut out)?;
    copy(runs, first, count, Change::Lift, &mut out)?;
    copy(runs, end, PAGES - end, Change::Keep, &mut out)?;
    Ok(out)
}
