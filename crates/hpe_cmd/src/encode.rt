//! The action `encode`: transfer frames to slots, and a line on what was sent.

ghost use Rattle.std.specs.Prelude.{◌≡◌, ◌≤◌, ◌<◌, ◌^◌, length, IfErr, IfOk};
ghost use Rattle.hpe_io.specs.Standing.{SinkStands, SourceStands};
ghost use Rattle.hpe_cmd.specs.Causes.{HasCause};
ghost use Rattle.hpe_cmd.specs.Changes.{change};
ghost use Rattle.hpe_cmd.specs.EncodeRun.{EncodeRun, Reports, sent_line, sent_slots, unsent};

use crate::ending::{Ending, Status};
use hpe_base::{Profile, geometry};
use hpe_io::{Sink, Source};
use hpe_send::{SendFault, Sender, Sent};
use hpe_text::{Line, push_entry};
use std::alloc::Global;

/// The slots of so many codewords with those that flush the channel interleaver.
fn sent_slots(p: &Profile, words: u64) -> u64
    requires { words ≤ 2 ^ 34 }
    ensures { result ≡ sent_slots p.now words }
{
    if words == 0 {
        return 0;
    }
    let measures = geometry(p);
    (words + measures.flush as u64) * measures.period as u64
}

/// The line on what was sent, with its line feed.
fn sent_line(p: &Profile, sent: &Sent) -> Line
    requires { sent.now.words ≤ 2 ^ 34 }
    ensures text { result.bytes ≡ sent_line sent.now.frames sent.now.words (sent_slots p.now sent.now.words) }
    ensures some { 0 < length result.bytes }
{
    let mut line = Line::new();
    push_entry(&mut line, "frames ", sent.frames);
    push_entry(&mut line, " words ", sent.words);
    push_entry(&mut line, " slots ", sent_slots(p, sent.words));
    line.push_str("\n");
    line
}

/// How a run ends where not all was sent of an input of at most `limit` octets.
fn unsent(limit: u64, fault: SendFault) -> Ending
    ensures { result ≡ unsent limit fault }
{
    match fault {
        SendFault::Read => Ending::ReadFault,
        SendFault::Write => Ending::WriteFault,
        SendFault::TooLong => Ending::TooLong { limit },
        SendFault::Ragged { rest, .. } => Ending::Ragged { rest },
    }
}

/// Puts the line on what was sent.
fn report_sent<R: Sink>(p: &Profile, sent: &Sent, report: &mut R) -> Status
    requires { sent.now.words ≤ 2 ^ 34 }
    ensures told { Reports (change R.written R.faults report.old report.new)
        (sent_line sent.now.frames sent.now.words (sent_slots p.now sent.now.words)) result }
    ensures report { SinkStands R.faults R.mark report.old report.new }
{
    match report.put(sent_line(p, sent).as_bytes()) {
        Ok(()) => Status::Done,
        Err(_) => Status::ReportFault,
    }
}

/// Encodes the whole frames of the input, of at most `limit` octets, and puts a line on them where nothing is left
/// over. Without memory nothing is done.
pub fn encode<I: Source, O: Sink, R: Sink>(
    alloc: Global,
    p: &Profile,
    limit: u64,
    input: &mut I,
    output: &mut O,
    report: &mut R,
) -> Result<Status, Ending>
    requires limit { (1 ≤ limit) × (limit ≤ 2 ^ 40) }
    ensures ok { IfOk result (λ status. EncodeRun p.now limit (change I.left I.faults input.old input.new)
        (change O.written O.faults output.old output.new) (change R.written R.faults report.old report.new) status) }
    ensures err { IfErr result (λ e. (e ≡ Ending.NoMemory)
        × (input.new ≡ input.old) × (output.new ≡ output.old) × (report.new ≡ report.old)) }
    ensures cause { IfOk result (λ status. HasCause status (change I.left I.faults input.old input.new)
        (change O.written O.faults output.old output.new) (change R.written R.faults report.old report.new)) }
    ensures input { SourceStands I.faults I.mark I.build input.old input.new }
    ensures output { SinkStands O.faults O.mark output.old output.new }
    ensures report { SinkStands R.faults R.mark report.old report.new }
{
    let Ok(sender) = Sender::new(alloc, p) else {
        return Err(Ending::NoMemory);
    };
    match sender.send(limit, input, output) {
        Ok(sent) => Ok(report_sent(p, &sent, report)),
        Err(fault) => Ok(unsent(limit, fault).end(report)),
    }
}
