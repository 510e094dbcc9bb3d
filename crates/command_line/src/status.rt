//! Exit statuses.
ghost use Rattle.std.specs.Prelude.{◌≡◌, ◌≤◌, ◌↔◌, IsNone, option_map};
ghost use Rattle.command_line.specs.Status.{notice_text, status_number};

use identity_io::ReadError;

/// How a run of a program ended.
#[derive(Clone, Copy, Debug, PartialEq, Eq)]
pub enum Status {
    /// The program did what it was asked to do.
    Done,

    /// What was read was refused, and the line of its refusal was written.
    Refused,

    /// The words are no command.
    Usage,

    /// The input failed.
    SourceFailed,

    /// The output failed.
    SinkFailed,

    /// No memory was left.
    OutOfMemory,

    /// The input is longer than the program takes, or asks for more than it does.
    TooLong,

    /// The input is no script, or stops before its end.
    BadScript,
}

impl Status {
    /// The exit status of the program.
    pub fn number(self) -> u8
        ensures { result ≡ status_number self }
    {
        match self {
            Status::Done => 0,
            Status::Refused => 1,
            Status::Usage => 2,
            Status::SourceFailed => 3,
            Status::SinkFailed => 4,
            Status::OutOfMemory => 5,
            Status::TooLong => 6,
            Status::BadScript => 7,
        }
    }

    /// What a person at the terminal is told where the program has no words of its own, none where the output says it.
    pub fn notice(self) -> Option<&'static str>
        ensures text { option_map (λ text. text.now) result ≡ notice_text self }
        ensures above_one { IsNone result ↔ (status_number self ≤ 1) }
    {
        match self {
            Status::Done | Status::Refused => None,
            Status::Usage => Some("the words are no command"),
            Status::SourceFailed => Some("the input could not be read"),
            Status::SinkFailed => Some("the output could not be written"),
            Status::OutOfMemory => Some("no memory was left"),
            Status::TooLong => Some("the input is too long"),
            Status::BadScript => Some("the input is no script"),
        }
    }
}

impl From<ReadError> for Status {
    ghost use Rattle.command_line.specs.Status.{read_status};

    ghost from_gives = { λ error status. status ≡ read_status error };

    fn from(error: ReadError) -> Self {
        match error {
            ReadError::Failed => Status::SourceFailed,
            ReadError::TooLong => Status::TooLong,
            ReadError::OutOfMemory => Status::OutOfMemory,
        }
    }
}
