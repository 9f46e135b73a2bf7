// What may be done with a page.
ghost use Rattle.std.specs.Prelude.{◌≡◌};
ghost use Rattle.page_rights.specs.PageRights.{reaches, lifted};
ghost use Rattle.page_rights.specs.RunList.{changed, is_sought};

/// What may be done with a page. Each right has what those before it have; `reaches` compares them.
#[derive(Clone, Copy, Debug, PartialEq, Eq)]
pub enum Rights {
    /// Nothing.
    No,
    /// It may be read.
    Read,
    /// It may be read and written.
    Write,
}

impl Rights {
    /// Whether these rights are at least those.
    #[inline]
    pub fn reaches(self, need: Rights) -> bool
        ensures { result ≡ reaches self need }
    {
        match need {
            Rights::No => true,
            Rights::Read => !matches!(self, Rights::No),
            Rights::Write => matches!(self, Rights::Write),
        }
    }

    /// Write in the place of No.
    pub(crate) fn lifted(self) -> Rights
        ensures { result ≡ lifted self }
    {
        match self {
            Rights::No => Rights::Write,
            same => same,
        }
    }
}

/// What becomes of the rights of pages that are copied.
#[derive(Clone, Copy)]
pub enum Change {
    Keep,
    Lift,
}

impl Change {
    /// The rights after the change.
    pub fn of(self, rights: Rights) -> Rights
        ensures { result ≡ changed self rights }
    {
        match self {
            Change::Keep => rights,
            Change::Lift => rights.lifted(),
        }
    }
}

/// What rights are looked for.
#[derive(Clone, Copy)]
pub enum Sought {
    /// Those that do not reach these.
    Below(Rights),
    /// Those that are not these.
    Other(Rights),
}

impl Sought {
    /// Whether these rights are looked for.
    pub fn is(self, rights: Rights) -> bool
        ensures { result ≡ is_sought self rights }
    {
        match self {
            Sought::Below(least) => !rights.reaches(least),
            Sought::Other(to) => !(rights.reaches(to) && to.reaches(rights)),
        }
    }
}
