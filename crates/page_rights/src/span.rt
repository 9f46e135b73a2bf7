// Pages one after another with one right, which are looked at before the runs.
ghost use Rattle.std.specs.Prelude.{◌≡◌, ◌⊎◌, ◌++◌, ◌≤◌};
ghost use Rattle.std.specs.List.{All};
ghost use Rattle.page_rights.specs.PageRights.{none_granted};
ghost use Rattle.page_rights.specs.RunList.{spread, IsSpan};

use crate::parts::Run;
use crate::rights::Rights;

/// How many pages there are, and half of them.
const PAGES: u64 = 1 << 20;

const HALF: u64 = 1 << 19;

/// So many pages from the first on, which have one right.
#[derive(Clone, Copy)]
pub struct Span {
    pub first: u64,
    pub count: u64,
    pub rights: Rights,
}

/// No pages.
pub const NOWHERE: Span = Span {
    first: 0,
    count: 0,
    rights: Rights::No,
};

// The longer of two, where the first has rights; else the second.
fn longer(one: Span, other: Span) -> Span
    ensures { (result ≡ one) ⊎ (result ≡ other) }
{
    if one.rights.reaches(Rights::Read) && other.count < one.count {
        one
    } else {
        other
    }
}

// A count where it is counted; else 0.
fn counted(count: u64, counts: bool) -> u64
    ensures { result ≤ count }
{
    if counts { count } else { 0 }
}

// The longest of the runs that begin in a part of the pages and have rights.
fn longest(runs: &[Run], from: u64, to: u64) -> Span
    ensures { IsSpan (spread runs.now ++ none_granted) result }
{
    let mut found = NOWHERE;
    let mut before = 0;
    'runs: for run in runs {
        if before >= PAGES {
            return found;
        }
        let count = u64::from(run.count);
        let span = Span {
            first: before,
            count: counted(count, from <= before && before < to),
            rights: run.rights,
        };
        found = longer(span, found);
        before += count;
    }
    found
}

/// The longest run of each half of the pages: a heap stands in the lower one, and a stack in the upper one.
pub fn spans_of(runs: &[Run]) -> [Span; 2]
    ensures { All (IsSpan (spread runs.now ++ none_granted)) result }
{
    [longest(runs, 0, HALF), longest(runs, HALF, PAGES)]
}
