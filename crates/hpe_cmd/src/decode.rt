//! The action `decode`: counts of slots to transfer frames, and the report on the words.

ghost use Rattle.std.specs.Prelude.{◌≡◌, ◌≤◌, ◌^◌, IfErr, IfOk};
ghost use Rattle.hpe_io.specs.Standing.{SinkStands, SourceStands};
ghost use Rattle.hpe_cmd.specs.Causes.{HasCause};
ghost use Rattle.hpe_cmd.specs.Changes.{change};
ghost use Rattle.hpe_cmd.specs.DecodeRun.{DecodeRun, received};

use crate::ending::{Ending, Status};
use crate::host::Host;
use crate::words::Asked;
use hpe_base::Profile;
use hpe_io::{Sink, Source};
use hpe_recv::{Gate, Receiver, RecvFault, Tally};
use std::thread::Threads;

/// How a run ends after the receiver's answer on an input of at most `limit` octets.
fn ending_of(limit: u64, answer: Result<Tally, RecvFault>) -> Ending
    ensures { result ≡ received limit answer }
{
    match answer {
        Ok(tally) => {
            if tally.lost == 0 {
                Ending::Done
            } else {
                Ending::WordsLost
            }
        }
        Err(RecvFault::Read) => Ending::ReadFault,
        Err(RecvFault::Write) => Ending::WriteFault,
        Err(RecvFault::Report) => Ending::ReportFault,
        Err(RecvFault::TooLong) => Ending::TooLong { limit },
        Err(RecvFault::NoMarker { .. }) => Ending::NoMarker,
    }
}

/// Decodes the counts of the input, of at most as many octets as are asked: the frames that are delivered go to the
/// output, and a line for each word and one for the tally, or the line on the missing marker, to the report. Without
/// memory nothing is done.
pub fn decode<T: AllocGlobal + Threads + Sync, G: Gate, I: Source, O: Sink, R: Sink>(
    host: &Host<T, G>,
    p: &Profile,
    asked: &Asked,
    input: &mut I,
    output: &mut O,
    report: &mut R,
) -> Result<Status, Ending>
    requires limit { (1 ≤ asked.now.limit) × (asked.now.limit ≤ 2 ^ 40) }
    requires workers { (1 ≤ asked.now.workers) × (asked.now.workers ≤ 16) }
    ensures ok { IfOk result (λ status. DecodeRun p.now asked.now.limit
        (change I.left I.faults input.old input.new)
        (change O.written O.faults output.old output.new) (change R.written R.faults report.old report.new) status) }
    ensures err { IfErr result (λ e. (e ≡ Ending.NoMemory)
        × (input.new ≡ input.old) × (output.new ≡ output.old) × (report.new ≡ report.old)) }
    ensures cause { IfOk result (λ status. HasCause status (change I.left I.faults input.old input.new)
        (change O.written O.faults output.old output.new) (change R.written R.faults report.old report.new)) }
    ensures input { SourceStands I.faults I.mark I.build input.old input.new }
    ensures output { SinkStands O.faults O.mark output.old output.new }
    ensures report { SinkStands R.faults R.mark report.old report.new }
{
    let Ok(mut receiver) = Receiver::new(host.rt.alloc(), p, asked.workers) else {
        return Err(Ending::NoMemory);
    };
    let answer = receiver.receive(host.rt, host.gate, asked.limit, input, output, report);
    Ok(ending_of(asked.limit, answer).end(report))
}
