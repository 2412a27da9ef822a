//! The action `simulate`: a link in memory, the report on its words, and a line on what came back.

ghost use Rattle.std.specs.Prelude.{◌≡◌, ◌≤◌, ◌^◌, IfErr, IfOk};
ghost use Rattle.hpe_io.specs.Standing.{SinkStands};
ghost use Rattle.hpe_cmd.specs.Causes.{HasCause};
ghost use Rattle.hpe_cmd.specs.Changes.{Change, Serves, change};
ghost use Rattle.hpe_cmd.specs.SimulateRun.{SimulateRun, simulated};

use crate::ending::{Ending, Status};
use crate::host::Host;
use crate::words::Asked;
use hpe_base::Profile;
use hpe_io::Sink;
use hpe_recv::{Gate, Tally};
use hpe_sim::SimFault;
use std::thread::Threads;

/// How a run ends after the answer of a simulation of at most `limit` slots. Without memory nothing was done, and the
/// error says so.
fn ending_of(limit: u64, answer: Result<Tally, SimFault>) -> Result<Ending, Ending>
    ensures { result ≡ simulated limit answer }
{
    match answer {
        Ok(tally) => {
            if tally.lost == 0 {
                Ok(Ending::Done)
            } else {
                Ok(Ending::WordsLost)
            }
        }
        Err(SimFault::Write) => Ok(Ending::WriteFault),
        Err(SimFault::Report) => Ok(Ending::ReportFault),
        Err(SimFault::TooLong) => Ok(Ending::TooLong { limit }),
        Err(SimFault::NoMarker { .. }) => Ok(Ending::NoMarker),
        Err(SimFault::NoMemory) => Err(Ending::NoMemory),
    }
}

/// Simulates the link that is asked, of at most as many slots as are asked: the receiver's lines go to the report, and
/// a line on what came back to the output. Without memory nothing is done.
pub fn simulate<T: AllocGlobal + Threads + Sync, G: Gate, O: Sink, R: Sink>(
    host: &Host<T, G>,
    p: &Profile,
    asked: &Asked,
    output: &mut O,
    report: &mut R,
) -> Result<Status, Ending>
    requires frames { asked.now.task.frames ≤ 65535 }
    requires workers { (1 ≤ asked.now.workers) × (asked.now.workers ≤ 16) }
    requires limit { (1 ≤ asked.now.limit) × (asked.now.limit ≤ 2 ^ 28) }
    ensures ok { IfOk result (λ status. SimulateRun p.now asked.now.limit asked.now.task
        (change O.written O.faults output.old output.new) (change R.written R.faults report.old report.new) status) }
    ensures err { IfErr result (λ e. (e ≡ Ending.NoMemory)
        × (output.new ≡ output.old) × (report.new ≡ report.old)) }
    ensures cause { (input : Change) → Serves input → IfOk result (λ status. HasCause status input
        (change O.written O.faults output.old output.new) (change R.written R.faults report.old report.new)) }
    ensures output { SinkStands O.faults O.mark output.old output.new }
    ensures report { SinkStands R.faults R.mark report.old report.new }
{
    let answer = hpe_sim::simulate(
        host.rt,
        host.gate,
        p,
        &asked.task,
        asked.workers,
        asked.limit,
        output,
        report,
    );
    let ending = ending_of(asked.limit, answer)?;
    Ok(ending.end(report))
}
