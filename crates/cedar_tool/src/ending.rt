//! How a run ends.
ghost use Rattle.std.specs.Prelude.{◌≡◌};
ghost use Rattle.cedar_tool.specs.Answers.{worse};
ghost use Rattle.cedar_tool.specs.Ends.{run_status};

/// What the texts of a run turned out to be.
#[derive(Clone, Copy)]
pub enum Verdict {
    /// All are as they are asked to be.
    Accepted,
    /// One is refused, or isn't laid out.
    Refused,
    /// One couldn't be had, or not be written.
    Failed,
}

impl Verdict {
    /// The verdict on these texts and others: the worse.
    pub fn and(self, other: Verdict) -> Verdict
        ensures { result ≡ worse self other }
    {
        match self {
            Verdict::Accepted => other,
            Verdict::Refused => match other {
                Verdict::Failed => Verdict::Failed,
                _ => Verdict::Refused,
            },
            Verdict::Failed => Verdict::Failed,
        }
    }
}

/// How a run ends.
#[derive(Clone, Copy)]
pub enum Ending {
    /// All texts were tried.
    Answered(Verdict),
    /// The words ask for help or the version, which was written.
    Shown,
    /// The words ask for nothing that there is.
    Usage,
    /// Memory was refused.
    Memory,
    /// A stream failed.
    Stream,
}

impl Ending {
    /// The status of the process.
    pub fn status(&self) -> u8
        ensures { result ≡ run_status self.now }
    {
        match self {
            Ending::Answered(Verdict::Accepted) => 0,
            Ending::Answered(Verdict::Refused) => 1,
            Ending::Answered(Verdict::Failed) => 4,
            Ending::Shown => 0,
            Ending::Usage => 2,
            Ending::Memory => 3,
            Ending::Stream => 4,
        }
    }
}
