// What the lines so far tell.
ghost use Rattle.std.specs.Prelude.{◌≡◌, OnOk};
ghost use Rattle.pvm_asm.specs.Assembly.{unread, is_misplaced, early_kind, after_line, allows, with_sort, label_kept, line_size};

use crate::fits::statement_size;
use crate::given::Given;
use crate::keyword::{Directive, Header, Sort};
use crate::kind::AsmKind;
use crate::labels::Labels;
use crate::line::{
    Line, header_of, is_bad, is_jump, is_statement, is_unit, is_unknown, sort_of, width_set,
};
use crate::word::Word;
use std::alloc::{AllocError, Global};

/// What is known of a text after some of its lines.
#[derive(Drop)]
pub struct Survey {
    /// The header, where the first statement is one.
    pub header: Option<Header>,
    /// Whether a statement stood before.
    pub started: bool,
    /// Whether a label or a unit stood before.
    pub body: bool,
    pub given: Given,
    /// The width of the first `.width` that is not refused.
    pub width: Option<u64>,
    /// Whether a `.jump` stood before that counts.
    pub jumps: bool,
    /// How many bytes of code stood before.
    pub place: u64,
    pub labels: Labels,
}

/// Whether a header allows a directive.
pub fn allows(header: Option<Header>, directive: Directive) -> bool
    ensures { result ≡ allows header directive }
{
    match header {
        None => false,
        Some(Header::Code) => true,
        Some(Header::Standard) => directive != Directive::Meta,
        Some(Header::Raw) => matches!(
            directive,
            Directive::Width | Directive::Jump | Directive::Jumps | Directive::Lead
        ),
    }
}

fn noted(given: Given, sort: Option<Sort>) -> Given
    ensures { result ≡ with_sort given sort }
{
    let mut given = given;
    if let Some(Sort::Directive(directive)) = sort {
        given.note(directive);
    }
    given
}

fn keep_label(labels: &mut Labels, label: &Option<Word<'_>>, place: u64) -> Result<(), AllocError>
    ensures { OnOk result (labels.new ≡ label_kept labels.old label.now place) }
{
    match label {
        None => Ok(()),
        Some(name) => labels.keep(name.bytes(), place),
    }
}

impl Survey {
    /// Before the first line.
    pub fn new(alloc: Global) -> Survey
        ensures { result ≡ unread }
    {
        Survey {
            header: None,
            started: false,
            body: false,
            given: Given {
                meta: false,
                ro: false,
                rw: false,
                heap: false,
                stack: false,
                width: false,
                jump: false,
                jumps: false,
                lead: false,
            },
            width: None,
            jumps: false,
            place: 0,
            labels: Labels::new(alloc),
        }
    }

    // Whether a statement may not stand there.
    fn misplaces(&self, labelled: bool, sort: Option<Sort>) -> bool
        ensures { result ≡ is_misplaced self.now labelled sort }
    {
        match sort {
            None => labelled && !self.started,
            Some(Sort::Header(_)) => labelled || self.started,
            Some(Sort::Directive(directive)) => labelled
                || self.body
                || self.given.repeats(directive)
                || !allows(self.header, directive),
            Some(Sort::Unit) => false,
        }
    }

    /// Which of the first four kinds a line has.
    pub fn early_kind(&self, line: &Line<'_>) -> Option<AsmKind>
        ensures { result ≡ early_kind self.now line.now }
    {
        let sort = sort_of(&line.statement);
        if is_statement(&line.statement) && !self.started && header_of(sort).is_none() {
            Some(AsmKind::MissingHeader)
        } else if is_unknown(&line.statement) {
            Some(AsmKind::UnknownName)
        } else if self.misplaces(line.label.is_some(), sort) {
            Some(AsmKind::Misplaced)
        } else if is_bad(&line.statement) {
            Some(AsmKind::BadOperands)
        } else {
            None
        }
    }

    fn header_after(&self, line: &Line<'_>) -> Option<Header>
        ensures { result ≡ (after_line self.now line.now).header }
    {
        if self.started {
            self.header
        } else {
            header_of(sort_of(&line.statement))
        }
    }

    fn body_after(&self, line: &Line<'_>) -> bool
        ensures { result ≡ (after_line self.now line.now).body }
    {
        self.body || line.label.is_some() || is_unit(sort_of(&line.statement))
    }

    fn width_after(&self, line: &Line<'_>) -> Option<u64>
        ensures { result ≡ (after_line self.now line.now).width }
    {
        match self.width {
            Some(width) => Some(width),
            None => {
                if self.early_kind(line).is_some() {
                    None
                } else {
                    width_set(&line.statement)
                }
            }
        }
    }

    fn jumps_after(&self, line: &Line<'_>) -> bool
        ensures { result ≡ (after_line self.now line.now).jumps }
    {
        self.jumps || (self.early_kind(line).is_none() && is_jump(&line.statement))
    }

    // How many bytes of code a line gives.
    fn line_size(&self, line: &Line<'_>) -> u64
        ensures { result ≡ line_size self.now line.now }
    {
        if self.early_kind(line).is_some() {
            0
        } else {
            statement_size(self.place, &line.statement)
        }
    }

    /// Takes in one line more.
    ///
    /// # Errors
    /// Want of memory.
    pub fn take(&mut self, line: &Line<'_>) -> Result<(), AllocError>
        ensures { OnOk result (self.new ≡ after_line self.old line.now) }
    {
        let header = self.header_after(line);
        let body = self.body_after(line);
        let width = self.width_after(line);
        let jumps = self.jumps_after(line);
        let given = noted(self.given, sort_of(&line.statement));
        let started = self.started || is_statement(&line.statement);
        let place = self
            .place
            .checked_add(self.line_size(line))
            .ok_or(AllocError)?;
        keep_label(&mut self.labels, &line.label, self.place)?;
        self.header = header;
        self.started = started;
        self.body = body;
        self.given = given;
        self.width = width;
        self.jumps = jumps;
        self.place = place;
        Ok(())
    }
}
