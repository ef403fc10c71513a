//! What is told of the lines of files.

ghost use Rattle.std.specs.Prelude.{◌≡◌, ◌||◌};
ghost use Rattle.xcov_report.specs.Told.{has, mark_of, same_told};
ghost use Rattle.xcov_report.specs.declared.told.Told.{Told};
ghost use Rattle.xcov_report.specs.Table.{nothing};

/// What may be told of a line.
#[derive(Clone, Copy, PartialEq, Eq)]
pub(crate) enum Told {
    /// An obligation stands there that is satisfied.
    Satisfied,
    /// An obligation stands there that is not satisfied.
    Lacking,
    /// It is of a region without a finding.
    Region,
    /// It is of a region with a finding.
    Exempted,
}

/// Some lines of a file, from one to another, and what is told of each of them.
#[derive(Clone, Copy, PartialEq, Eq)]
pub(crate) struct Stretch {
    pub(crate) file: u32,
    pub(crate) from: u32,
    pub(crate) to: u32,
    pub(crate) told: Told,
}

/// All that is told of a line.
#[derive(Clone, Copy, PartialEq, Eq)]
pub(crate) struct Kept {
    satisfied: bool,
    lacking: bool,
    region: bool,
    exempted: bool,
}

impl Kept {
    /// Nothing.
    pub(crate) fn nothing() -> Kept
        ensures { result ≡ nothing }
    {
        Kept {
            satisfied: false,
            lacking: false,
            region: false,
            exempted: false,
        }
    }

    /// All this, and what is told besides.
    pub(crate) fn with(self, told: Told) -> Kept
        ensures { (other : Told) → has other result ≡ (has other self || same_told other told) }
    {
        let mut all = self;
        match told {
            Told::Satisfied => all.satisfied = true,
            Told::Lacking => all.lacking = true,
            Told::Region => all.region = true,
            Told::Exempted => all.exempted = true,
        }
        all
    }

    /// The mark of the line.
    pub(crate) fn mark(self) -> u8
        ensures { result ≡ mark_of (λ told. has told self) }
    {
        if self.exempted {
            return b'*';
        }
        if self.region {
            return b'#';
        }
        match (self.satisfied, self.lacking) {
            (false, false) => b'.',
            (true, false) => b'+',
            (false, true) => b'-',
            (true, true) => b'!',
        }
    }
}
