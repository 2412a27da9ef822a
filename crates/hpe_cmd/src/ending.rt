//! How a run ends, and its line on the report.

ghost use Rattle.std.specs.Prelude.{◌≡◌, ◌≤◌, ◌++◌, [], length};
ghost use Rattle.hpe_io.specs.Standing.{SinkStands};
ghost use Rattle.hpe_cmd.specs.Changes.{IsTold, change};
ghost use Rattle.hpe_cmd.specs.FaultLines.{cause_text, fault_line, profile_line, rule_text};
ghost use Rattle.hpe_cmd.specs.Statuses.{status_number, status_of};

use hpe_base::{ProfileFault, Rule};
use hpe_io::Sink;
use hpe_profile::{ReadFault, key_name};
use hpe_text::{Line, push_entry};

/// The most octets of an input, where the words name no fewer: frames to encode, or counts to decode.
pub const LIMIT: u64 = 1 << 40;

/// How a run ended.
#[derive(Clone, Copy, Debug, PartialEq, Eq)]
pub enum Status {
    /// All was done: the whole frames of the input are encoded and nothing is left over, the input or the simulation is
    /// decoded and no word is lost, or the measures are written.
    Done,
    /// The words are not a command.
    Usage,
    /// The text of the profile names none.
    BadProfile,
    /// The shelf of profiles failed.
    ShelfFault,
    /// The input failed.
    ReadFault,
    /// The output failed.
    WriteFault,
    /// The report failed in a line that is no fault line.
    ReportFault,
    /// There was no memory while words, profile and buffers were made: no input was taken and nothing written.
    NoMemory,
    /// The input has more octets than the limit, or the simulation more slots.
    TooLong,
    /// The whole frames of the input are encoded, and the octets after them are not.
    Ragged,
    /// The input or the simulation is decoded, and some word is lost.
    WordsLost,
    /// The input is read or a link simulated, and all that the marker search sees of it is dark.
    NoMarker,
    /// The text of the profile is too long.
    ProfileTooLong,
    /// There is no profile of that name.
    ProfileAbsent,
}

impl Status {
    /// The exit status of the process.
    pub fn number(&self) -> u8
        ensures { result ≡ status_number self.now }
    {
        match self {
            Status::Done => 0,
            Status::Usage => 2,
            Status::BadProfile => 3,
            Status::ShelfFault => 4,
            Status::ReadFault => 5,
            Status::WriteFault => 6,
            Status::ReportFault => 7,
            Status::NoMemory => 8,
            Status::TooLong => 9,
            Status::Ragged => 10,
            Status::WordsLost => 11,
            Status::NoMarker => 12,
            Status::ProfileTooLong => 13,
            Status::ProfileAbsent => 17,
        }
    }
}

/// A status with the numbers that its fault line says.
#[derive(Clone, Copy, Debug, PartialEq, Eq)]
pub enum Ending {
    Done,
    Usage,
    BadProfile { cause: ReadFault },
    ShelfFault,
    ReadFault,
    WriteFault,
    ReportFault,
    NoMemory,
    /// The input has more than `limit` octets, or the simulation more than `limit` slots.
    TooLong { limit: u64 },
    /// `rest` octets of a begun frame are left over.
    Ragged { rest: u64 },
    WordsLost,
    NoMarker,
    ProfileTooLong,
    ProfileAbsent,
}

/// A rule between the values of a profile, as the report names it.
fn rule_text(rule: Rule) -> &'static str
    ensures text { result.now ≡ rule_text rule }
    ensures size { length result.now ≤ 12 }
{
    match rule {
        Rule::ColumnEmpty => "column empty",
        Rule::ColumnCount => "column count",
        Rule::KeptTotal => "kept total",
        Rule::RowsDivide => "rows divide",
        Rule::MarkerValue => "marker value",
        Rule::Depth => "depth",
        Rule::Window => "window",
    }
}

/// Why a text names no profile, as the report names it: what is wrong, and with which key or rule.
fn cause_text(cause: &ReadFault) -> (&'static str, &'static str)
    ensures text { result.0.now ++ result.1.now ≡ cause_text cause.now }
    ensures size { (length result.0.now ≤ 12) × (length result.1.now ≤ 12) }
{
    match cause {
        ReadFault::Text => ("text", ""),
        ReadFault::Unknown => ("unknown key", ""),
        ReadFault::Missing(key) => ("missing ", key_name(*key)),
        ReadFault::Kind(key) => ("kind of ", key_name(*key)),
        ReadFault::Profile(ProfileFault::Range(key)) => ("range of ", key_name(*key)),
        ReadFault::Profile(ProfileFault::Tie(rule)) => ("rule ", rule_text(*rule)),
        ReadFault::NoMemory => ("no memory", ""),
    }
}

/// The line on a text that names no profile, with its line feed.
fn profile_line(cause: &ReadFault) -> Line
    ensures { result.bytes ≡ profile_line cause.now }
{
    let (wrong, name) = cause_text(cause);
    let mut line = Line::new();
    line.push_str("bad profile: ");
    line.push_str(wrong);
    line.push_str(name);
    line.push_str("\n");
    line
}

impl Ending {
    /// The status alone.
    fn status(&self) -> Status
        ensures { result ≡ status_of self.now }
    {
        match self {
            Ending::Done => Status::Done,
            Ending::Usage => Status::Usage,
            Ending::BadProfile { .. } => Status::BadProfile,
            Ending::ShelfFault => Status::ShelfFault,
            Ending::ReadFault => Status::ReadFault,
            Ending::WriteFault => Status::WriteFault,
            Ending::ReportFault => Status::ReportFault,
            Ending::NoMemory => Status::NoMemory,
            Ending::TooLong { .. } => Status::TooLong,
            Ending::Ragged { .. } => Status::Ragged,
            Ending::WordsLost => Status::WordsLost,
            Ending::NoMarker => Status::NoMarker,
            Ending::ProfileTooLong => Status::ProfileTooLong,
            Ending::ProfileAbsent => Status::ProfileAbsent,
        }
    }

    /// The fault line with its line feed, or nothing where there is none.
    fn fault_line(&self) -> Line
        ensures { result.bytes ≡ fault_line self.now }
    {
        let mut line = Line::new();
        match self {
            Ending::Done | Ending::ReportFault | Ending::WordsLost | Ending::NoMarker =>
                return line,
            Ending::Usage => {
                line.push_str("usage: hpe encode, decode, geometry or simulate, with options");
            }
            Ending::BadProfile { cause } => return profile_line(cause),
            Ending::ShelfFault => line.push_str("profile not read"),
            Ending::ReadFault => line.push_str("read fault"),
            Ending::WriteFault => line.push_str("write fault"),
            Ending::NoMemory => line.push_str("no memory"),
            Ending::TooLong { limit } => push_entry(&mut line, "too long: limit ", *limit),
            Ending::Ragged { rest } => push_entry(&mut line, "ragged: rest ", *rest),
            Ending::ProfileTooLong => line.push_str("profile too long"),
            Ending::ProfileAbsent => line.push_str("profile not found"),
        }
        line.push_str("\n");
        line
    }

    /// Puts the fault line on the report, where there is one. A report that fails then changes nothing more.
    fn say<R: Sink>(&self, report: &mut R)
        ensures said { IsTold (change R.written R.faults report.old report.new) (fault_line self.now) }
        ensures silent { fault_line self.now ≡ [] → report.new ≡ report.old }
        ensures report { SinkStands R.faults R.mark report.old report.new }
    {
        let line = self.fault_line();
        if !line.is_empty() {
            let _put = report.put(line.as_bytes());
        }
    }

    /// Puts the fault line, where there is one, and answers the status.
    pub fn end<R: Sink>(&self, report: &mut R) -> Status
        ensures status { result ≡ status_of self.now }
        ensures said { IsTold (change R.written R.faults report.old report.new) (fault_line self.now) }
        ensures silent { fault_line self.now ≡ [] → report.new ≡ report.old }
        ensures report { SinkStands R.faults R.mark report.old report.new }
    {
        self.say(report);
        self.status()
    }
}
