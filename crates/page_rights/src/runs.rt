// The rights of all pages as callers see them.
ghost use Rattle.std.specs.Prelude.{◌≡◌, ◌+◌, ◌^◌, ◌<◌, ◌≤◌, OnOk, OnErr, IsOk, None, replicate};
ghost use Rattle.page_rights.specs.declared.rights.Rights.TheVariants as may;
ghost use Rattle.page_rights.specs.PageRights.{none_granted, right_of_page, pages_in, granted, lifted_range, lowest_below};

use crate::changes::{with_lifted, with_rights};
use crate::parts::{Run, first_sought, rights_at};
use crate::rights::{Rights, Sought};
use crate::span::{NOWHERE, Span, spans_of};
use std::alloc::{AllocError, Global};
use std::marker::Model;

/// The rights of the 2^20 pages, kept in runs of pages with one right.
#[derive(Drop)]
pub struct Runs {
    runs: Vec<Run>,
    // A span in each half of the pages, which is looked at first.
    near: [Span; 2],
}

impl Model for Runs {
    ghost use Rattle.std.specs.Prelude.{List};
    ghost use Rattle.page_rights.specs.declared.rights.Rights.{Rights};
    ghost use Rattle.std.specs.Prelude.{◌≡◌, ◌++◌, length};
    ghost use Rattle.std.specs.List.{All};
    ghost use Rattle.page_rights.specs.PageRights.{none_granted};
    ghost use Rattle.page_rights.specs.RunList.{rights_of_runs, spread, IsSpan};

    ghost Value = { List Rights };

    ghost view = { λ a. rights_of_runs a.runs.items };

    ghost invariant = { λ a. (length a.near ≡ 2) × All (IsSpan (spread a.runs.items ++ none_granted)) a.near };
}

impl Runs {
    /// No page has rights.
    pub fn new(alloc: Global) -> Runs
        ensures { result ≡ none_granted }
    {
        Runs {
            runs: Vec::new(alloc),
            near: [NOWHERE; 2],
        }
    }

    /// The rights of a page, by its number.
    #[inline(always)]
    pub fn rights(&self, page: u32) -> Rights
        requires { page < 2 ^ 20 }
        ensures { result ≡ right_of_page self.now page }
    {
        let number = u64::from(page);
        let span = &self.near[(page >> 19) as usize];
        if span.first <= number && number - span.first < span.count {
            return span.rights;
        }
        rights_at(&self.runs, page)
    }

    /// The lowest of `count` pages whose rights do not reach the least.
    pub fn first_below(&self, first: u32, count: u32, least: Rights) -> Option<u32>
        requires { first + count ≤ 2 ^ 20 }
        ensures { result ≡ lowest_below self.now first count least }
    {
        first_sought(&self.runs, first, count, Sought::Below(least))
    }

    /// Gives each of `count` pages these rights.
    ///
    /// # Errors
    /// `AllocError` for want of memory, where some page has other rights; all are then as before.
    pub fn set(&mut self, first: u32, count: u32, rights: Rights) -> Result<(), AllocError>
        requires { first + count ≤ 2 ^ 20 }
        ensures ok { OnOk result (self.new ≡ granted self.old first count rights) }
        ensures err { OnErr result (self.new ≡ self.old) }
        ensures held { pages_in self.old first count ≡ replicate count rights → IsOk result }
    {
        if first_sought(&self.runs, first, count, Sought::Other(rights)).is_none() {
            return Ok(());
        }
        let runs = with_rights(*self.runs.allocator(), &self.runs, first, count, rights)?;
        self.near = spans_of(&runs);
        self.runs = runs;
        Ok(())
    }

    /// Gives Write to each of `count` pages that has no rights. Others stay.
    ///
    /// # Errors
    /// `AllocError` for want of memory, where some page has no rights; all are then as before.
    pub fn lift(&mut self, first: u32, count: u32) -> Result<(), AllocError>
        requires { first + count ≤ 2 ^ 20 }
        ensures ok { OnOk result (self.new ≡ lifted_range self.old first count) }
        ensures err { OnErr result (self.new ≡ self.old) }
        ensures held { lowest_below self.old first count may.Read ≡ None → IsOk result }
    {
        if first_sought(&self.runs, first, count, Sought::Below(Rights::Read)).is_none() {
            return Ok(());
        }
        let runs = with_lifted(*self.runs.allocator(), &self.runs, first, count)?;
        self.near = spans_of(&runs);
        self.runs = runs;
        Ok(())
    }
}
