// What an export answers.
ghost use Rattle.std.specs.Prelude.{◌≡◌};
ghost use Rattle.graphml.specs.Answer.{refusal_number};

/// What was written: how many bytes from the output's first on, and how many happenings and edges
/// are in them. `whole` is false where the output had no room for all; then too the file is closed.
#[derive(Clone, Copy, Debug, PartialEq, Eq)]
pub struct Exported {
    pub bytes: usize,
    pub happenings: usize,
    pub edges: usize,
    pub whole: bool,
}

/// Why nothing was written.
#[derive(Clone, Copy, Debug, PartialEq, Eq)]
pub enum Refusal {
    /// The log is not the one that the group wrote.
    LogDiffers = 13,
    /// The output has no room for the frame.
    ShortOutput = 17,
}

impl Refusal {
    /// The number of the question that was answered no.
    pub fn number(self) -> u8
        ensures { result ≡ refusal_number self }
    {
        self as u8
    }
}
