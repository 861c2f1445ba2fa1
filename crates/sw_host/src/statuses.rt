//! How a run ended.

ghost use Rattle.std.specs.Prelude.{◌≡◌};
ghost use Rattle.sw_host.specs.Texts.{code_of, refusal_text};

use sw_lock::Spent;

/// How a run ended. Its number is the program's exit status.
#[derive(Debug, Clone, Copy, PartialEq, Eq)]
pub enum Status {
    /// The work is complete.
    Done,
    /// There was no memory. Nothing is written.
    NoMemory,
    /// The words are no command.
    BadWords,
    /// A line of the source is no part of a recording.
    BadLine,
    /// A read of the source failed.
    ReadFault,
    /// A write to the sink failed.
    WriteFault,
    /// The disk failed.
    DiskFault,
    /// The current part of the disk begins with the header of no format.
    NotFormatted,
    /// The journal of the disk is bad.
    BadJournal,
    /// Nothing may happen, and a lane has actions left.
    Stalled,
    /// The source has more bytes than a recording may have, or a line of it passes a limit.
    TooLarge,
    /// The disk has no room for what would be written.
    Full,
    /// The current part of the disk begins with the header of a format already.
    AlreadyFormatted,
    /// A worker has made all the turns that a worker makes, and nothing else has ended the run.
    Spent(Spent),
    /// The transcript is none that the recording can have.
    Refuted,
    /// No line of the source divides a recording from a transcript.
    NoTranscript,
    /// A roster, or a run under a limit, has made as many entries as it makes, and one more comes next.
    NoEntryLeft,
}

impl Status {
    /// The program's exit status.
    pub fn code(self) -> u8
        ensures { result ≡ code_of self }
    {
        match self {
            Status::Done => 0,
            Status::NoMemory => 1,
            Status::BadWords => 2,
            Status::BadLine => 3,
            Status::ReadFault => 4,
            Status::WriteFault => 5,
            Status::DiskFault => 6,
            Status::NotFormatted => 7,
            Status::BadJournal => 8,
            Status::Stalled => 9,
            Status::TooLarge => 10,
            Status::Full => 11,
            Status::AlreadyFormatted => 12,
            Status::Spent(_) => 13,
            Status::Refuted => 15,
            Status::NoTranscript => 16,
            Status::NoEntryLeft => 13,
        }
    }

    // The text that a refusal of its own prints. Done, Stalled, Spent and
    // NoEntryLeft print a transcript or the command's text,
    // a bad line its number and cause, and a bad journal its offset; want of memory and a write fault print nothing.
    pub(crate) fn refusal(self) -> &'static str
        ensures { result.now ≡ refusal_text self }
    {
        match self {
            Status::BadWords => "error: words: init, replay [N], show, gen NUMBER SIZE\n",
            Status::ReadFault => "error: read\n",
            Status::DiskFault => "error: disk\n",
            Status::NotFormatted => "error: not formatted\n",
            Status::TooLarge => "error: too large: recording\n",
            Status::Full => "error: full\n",
            Status::AlreadyFormatted => "error: already formatted\n",
            Status::Refuted => "audit no\n",
            Status::NoTranscript => "error: no transcript\n",
            Status::Done
            | Status::NoMemory
            | Status::BadLine
            | Status::WriteFault
            | Status::BadJournal
            | Status::Stalled
            | Status::Spent(_)
            | Status::NoEntryLeft => "",
        }
    }
}
