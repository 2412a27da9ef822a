//! The action `geometry`: the measures of a profile in one line.

ghost use Rattle.std.specs.Prelude.{◌≡◌, ◌<◌, ◌≤◌, length};
ghost use Rattle.hpe_io.specs.Standing.{SinkStands};
ghost use Rattle.hpe_cmd.specs.Causes.{HasCause};
ghost use Rattle.hpe_cmd.specs.Changes.{Change, Serves, change};
ghost use Rattle.hpe_cmd.specs.GeometryRun.{GeometryRun, geometry_line, rate_text};

use crate::ending::{Ending, Status};
use hpe_base::{Profile, Rate, geometry};
use hpe_io::Sink;
use hpe_text::{Line, push_entry};

/// The rate as it is written in a profile.
fn rate_text(rate: Rate) -> &'static str
    ensures text { result.now ≡ rate_text rate }
    ensures size { length result.now ≤ 3 }
{
    match rate {
        Rate::Third => "1/3",
        Rate::Half => "1/2",
        Rate::TwoThirds => "2/3",
    }
}

/// The measures of the profile in one line, with its line feed.
fn geometry_line(p: &Profile) -> Line
    ensures text { result.bytes ≡ geometry_line p.now }
    ensures some { 0 < length result.bytes }
{
    let measures = geometry(p);
    let mut line = Line::new();
    push_entry(&mut line, "order ", p.order().slots() as u64);
    line.push_str(" rate ");
    line.push_str(rate_text(p.rate()));
    push_entry(&mut line, " steps ", measures.steps as u64);
    push_entry(&mut line, " block ", measures.block as u64);
    push_entry(&mut line, " symbols ", measures.symbols as u64);
    push_entry(&mut line, " marker ", p.marker().len() as u64);
    push_entry(&mut line, " period ", measures.period as u64);
    push_entry(&mut line, " depth ", measures.depth as u64);
    push_entry(&mut line, " flush ", measures.flush as u64);
    line.push_str("\n");
    line
}

/// Writes the measures of the profile.
pub fn geometry_of<O: Sink, R: Sink>(p: &Profile, output: &mut O, report: &mut R) -> Status
    ensures run { GeometryRun p.now
        (change O.written O.faults output.old output.new) (change R.written R.faults report.old report.new) result }
    ensures cause { (input : Change) → Serves input → HasCause result input
        (change O.written O.faults output.old output.new) (change R.written R.faults report.old report.new) }
    ensures silent { result ≡ Status.Done → report.new ≡ report.old }
    ensures output { SinkStands O.faults O.mark output.old output.new }
    ensures report { SinkStands R.faults R.mark report.old report.new }
{
    match output.put(geometry_line(p).as_str().as_bytes()) {
        Ok(()) => Status::Done,
        Err(_) => Ending::WriteFault.end(report),
    }
}
