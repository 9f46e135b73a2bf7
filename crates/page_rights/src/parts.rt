// Parts of runs, looked up and copied to the end of other runs.
ghost use Rattle.std.specs.Prelude.{◌≡◌, ◌+◌, ◌^◌, ◌≤◌, ◌++◌, OnOk, map, take, drop, replicate, slice_index_or};
ghost use Rattle.std.specs.List.{position_from};
ghost use Rattle.page_rights.specs.PageRights.{none_granted};
ghost use Rattle.page_rights.specs.RunList.{spread, changed, is_sought};
ghost use Rattle.page_rights.specs.declared.rights.Rights.TheVariants as may;

use crate::rights::{Change, Rights, Sought};
use std::alloc::AllocError;

/// So many pages, one after another, with one right.
#[derive(Clone, Copy)]
pub struct Run {
    pub count: u32,
    pub rights: Rights,
}

/// Puts pages at the end, in the last run where it has the same right.
pub fn append(runs: &mut Vec<Run>, count: u32, rights: Rights) -> Result<(), AllocError>
    ensures { OnOk result (spread runs.new.items ≡ spread runs.old.items ++ replicate count rights) }
{
    if count == 0 {
        return Ok(());
    }
    let Some(last) = runs.pop() else {
        runs.push(Run { count, rights })?;
        return Ok(());
    };
    if last.rights == rights {
        if let Some(sum) = last.count.checked_add(count) {
            runs.push(Run { count: sum, rights })?;
            return Ok(());
        }
    }
    runs.push(last)?;
    runs.push(Run { count, rights })?;
    Ok(())
}

/// Puts the pages of a part of `runs` at the end of `out`, each changed.
pub fn copy(
    runs: &[Run],
    first: u32,
    count: u32,
    change: Change,
    out: &mut Vec<Run>,
) -> Result<(), AllocError>
    requires { first + count ≤ 2 ^ 20 }
    ensures { OnOk result (spread out.new.items ≡ spread out.old.items ++ map (changed change) (take count (drop first (spread runs.now ++ none_granted)))) }
{
    let mut before = first;
    let mut left = count;
    'runs: for run in runs {
        let passed = before.min(run.count);
        let taken = left.min(run.count - passed);
        append(out, taken, change.of(run.rights))?;
        before -= passed;
        left -= taken;
    }
    append(out, left, change.of(Rights::No))
}

/// The rights of a page.
#[inline(never)]
pub fn rights_at(runs: &[Run], page: u32) -> Rights
    ensures { result ≡ slice_index_or (spread runs.now ++ none_granted) page may.No }
{
    let mut before = page;
    'runs: for run in runs {
        if before < run.count {
            return run.rights;
        }
        before -= run.count;
    }
    Rights::No
}

/// The lowest page of a part whose rights are sought.
pub fn first_sought(runs: &[Run], first: u32, count: u32, sought: Sought) -> Option<u32>
    requires { first + count ≤ 2 ^ 20 }
    ensures { result ≡ position_from (is_sought sought) first (take count (drop first (spread runs.now ++ none_granted))) }
{
    let mut page = first;
    let mut before = first;
    let mut left = count;
    'runs: for run in runs {
        let passed = before.min(run.count);
        let taken = left.min(run.count - passed);
        if taken > 0 && sought.is(run.rights) {
            return Some(page);
        }
        page += taken;
        before -= passed;
        left -= taken;
    }
    if left > 0 && sought.is(Rights::No) {
        return Some(page);
    }
    None
}
