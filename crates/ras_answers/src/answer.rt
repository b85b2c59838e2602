ghost use Rattle.std.specs.Prelude.{◌≡◌, ◌<◌};

/// How a command ends that printed its text.
#[derive(Clone, Copy, Debug)]
pub enum Ending {
    /// It did what was asked.
    Done,
    /// The document is not accepted, or has no assignment to move servers to.
    NotAccepted,
    /// All reservations can be met, where those that clash were asked for.
    Fits,
    /// No assignment is allowed.
    Infeasible,
    /// The budget is spent.
    Limit,
}

impl Ending {
    ghost use Rattle.ras_answers.specs.Answered.{code_of};

    /// The status of a run that ends so.
    pub fn code(self) -> u8
        ensures { result ≡ code_of self }
    {
        match self {
            Ending::Done => 0,
            Ending::NotAccepted | Ending::Fits => 1,
            Ending::Infeasible => 4,
            Ending::Limit => 5,
        }
    }
}

/// What a command answers.
#[derive(Debug, Drop)]
pub enum Answer {
    /// A text to print.
    Printed { ending: Ending, text: Vec<u8> },
    /// A file is not valid, or its program is too large: a note, which ends with a line feed.
    Invalid { note: String },
}
