//! The last line of a report.
ghost use Rattle.std.specs.Prelude.{◌<◌, ◌≡◌, length, OnErr, IsErrOf};
ghost use Rattle.hpe_base.specs.Decoded.{tally_line};
ghost use Rattle.hpe_io.specs.Devices.{Puts};
ghost use Rattle.hpe_io.specs.Standing.{SinkAnswers};
ghost use Rattle.hpe_recv.specs.Receiving.{dark_line, tallied};

use crate::intake::Untaken;
use crate::receiver::Tally;
use hpe_io::Sink;
use hpe_text::{Line, push_entry};

/// The line on a tally, with its line feed.
pub fn tally_line(tally: &Tally) -> Line
    ensures text { result.bytes ≡ tally_line (tallied tally.now) }
    ensures some { 0 < length result.bytes }
{
    let mut line = Line::new();
    push_entry(&mut line, "words ", tally.words);
    push_entry(&mut line, " kept ", tally.kept);
    push_entry(&mut line, " lost ", tally.lost);
    push_entry(&mut line, " frames ", tally.frames);
    push_entry(&mut line, " lead ", tally.lead);
    push_entry(&mut line, " tail ", tally.tail);
    line.push_str("\n");
    line
}

/// The line on a stream without a marker, with its line feed.
pub fn dark_line(counts: u64) -> Line
    ensures text { result.bytes ≡ dark_line counts }
    ensures some { 0 < length result.bytes }
{
    let mut line = Line::new();
    push_entry(&mut line, "no marker in ", counts);
    line.push_str(" slots\n");
    line
}

/// Puts a line to the report.
pub fn put_line<R: Sink>(line: &Line, report: &mut R) -> Result<(), Untaken>
    requires some { 0 < length line.now.bytes }
    ensures bytes { Puts (R.written report.old) (R.written report.new) result line.now.bytes }
    ensures fault { OnErr result (IsErrOf result Untaken.Report) }
    ensures report_answers { SinkAnswers R.faults R.mark report.old report.new result }
{
    match report.put(line.as_bytes()) {
        Ok(()) => Ok(()),
        Err(_) => Err(Untaken::Report),
    }
}
