//! What the program does for its words.

ghost use Rattle.std.specs.Prelude.{◌≡◌, ◌≤◌, ◌+◌, ◌^◌, IfErr, IfOk, IfSome, IsTrue, List, Ok, Some, false, ℕ};
ghost use Rattle.hpe_base.specs.Parameters.{Parameters};
ghost use Rattle.hpe_io.specs.Devices.{Grows, TakesAtMost};
ghost use Rattle.hpe_io.specs.Standing.{SinkStands, SourceStands};
ghost use Rattle.hpe_cmd.specs.Causes.{HasCause, ShelfCause};
ghost use Rattle.hpe_cmd.specs.Changes.{change};
ghost use Rattle.hpe_cmd.specs.Complete.{HasOutcome, IsFeasible, MeetsNoFault, outcome};
ghost use Rattle.hpe_cmd.specs.DecodeRun.{DecodeRun};
ghost use Rattle.hpe_cmd.specs.EncodeRun.{EncodeRun};
ghost use Rattle.hpe_cmd.specs.GeometryRun.{GeometryRun};
ghost use Rattle.hpe_cmd.specs.Runs.{ActRun, Acts, EarlyRun, Follows, IsUsage, Settles, ShelfRun, WhereAsked, ending_of, opened, status_in};
ghost use Rattle.hpe_cmd.specs.SimulateRun.{SimulateRun};
ghost use Rattle.hpe_cmd.specs.Statuses.{is_early, status_of};
ghost use Rattle.hpe_cmd.specs.Words.{Request, asked, reads_input, texts_of};

use crate::decode::decode;
use crate::encode::encode;
use crate::ending::{Ending, Status};
use crate::geometry::geometry_of;
use crate::host::Host;
use crate::open::open_profile;
use crate::simulate::simulate;
use crate::words::{Action, Asked, Refusal, read_words};
use hpe_base::Profile;
use hpe_io::{Shelf, Sink, Source};
use hpe_recv::Gate;
use std::thread::Threads;

/// What a run answers: how it ended, and the input that it was given.
#[derive(Drop)]
pub struct Ended<I> {
    /// How the run ended.
    pub status: Status,
    /// The input, of which what the run took is gone.
    pub input: I,
}

/// Does the action under the profile. Without memory nothing is done.
fn act<T: AllocGlobal + Threads + Sync, G: Gate, I: Source, O: Sink, R: Sink>(
    host: &Host<T, G>,
    asked: &Asked,
    p: &Profile,
    input: &mut I,
    output: &mut O,
    report: &mut R,
) -> Result<Status, Ending>
    requires limit { (1 ≤ asked.now.limit) × (asked.now.limit ≤ 2 ^ 40) }
    requires slots { asked.now.action ≡ Action.Simulate → asked.now.limit ≤ 2 ^ 28 }
    requires workers { (1 ≤ asked.now.workers) × (asked.now.workers ≤ 16) }
    requires frames { asked.now.task.frames ≤ 65535 }
    ensures ok { IfOk result (λ status. ActRun asked.now.action p.now asked.now.limit asked.now.task
        (change I.left I.faults input.old input.new)
        (change O.written O.faults output.old output.new) (change R.written R.faults report.old report.new) status) }
    ensures err { IfErr result (λ e. (e ≡ Ending.NoMemory)
        × (input.new ≡ input.old) × (output.new ≡ output.old) × (report.new ≡ report.old)) }
    ensures cause { IfOk result (λ status. HasCause status (change I.left I.faults input.old input.new)
        (change O.written O.faults output.old output.new) (change R.written R.faults report.old report.new)) }
    ensures untouched { (reads_input asked.now.action ≡ false → input.new ≡ input.old)
        × (asked.now.action ≡ Action.Geometry → result ≡ Ok Status.Done → report.new ≡ report.old) }
    ensures input { SourceStands I.faults I.mark I.build input.old input.new }
    ensures output { SinkStands O.faults O.mark output.old output.new }
    ensures report { SinkStands R.faults R.mark report.old report.new }
{
    match asked.action {
        Action::Encode => encode(host.rt.alloc(), p, asked.limit, input, output, report),
        Action::Decode => decode(host, p, asked, input, output, report),
        Action::Geometry => Ok(geometry_of(p, output, report)),
        Action::Simulate => simulate(host, p, asked, output, report),
    }
}

/// How a run ends that its words don't begin.
fn ending_of(refusal: Refusal) -> Ending
    ensures { result ≡ ending_of refusal }
{
    match refusal {
        Refusal::Usage => Ending::Usage,
        Refusal::NoMemory => Ending::NoMemory,
    }
}

/// Reads the words, opens the profile and acts. The error is an ending of which the report knows nothing yet, and no
/// device was touched then.
fn follow<T: AllocGlobal + Threads + Sync, G: Gate, S: Shelf, I: Source, O: Sink, R: Sink>(
    host: &Host<T, G>,
    words: &[String],
    shelf: &mut S,
    input: &mut I,
    output: &mut O,
    report: &mut R,
) -> Result<Status, Ending>
    ensures ok { IfOk result (λ status. Acts (asked (texts_of words.now)) (S.texts shelf.old)
        (change I.left I.faults input.old input.new)
        (change O.written O.faults output.old output.new) (change R.written R.faults report.old report.new) status) }
    ensures err { IfErr result (λ e. IsTrue (is_early (status_of e))
        × (input.new ≡ input.old) × (output.new ≡ output.old) × (report.new ≡ report.old)) }
    ensures usage { IsUsage (asked (texts_of words.now)) (status_in result) }
    ensures profile { (r : Request) → asked (texts_of words.now) ≡ Some r
        → IfSome (opened (S.texts shelf.old) r.profile) (λ settled. Follows settled result) }
    ensures shelf { ShelfRun (asked (texts_of words.now)) S.texts S.faults shelf.old shelf.new (status_in result) }
    ensures untouched { (r : Request) → asked (texts_of words.now) ≡ Some r
        → (reads_input r.action ≡ false → input.new ≡ input.old)
        × (r.action ≡ Action.Geometry → status_in result ≡ Status.Done → report.new ≡ report.old) }
    ensures cause { ShelfCause (status_in result) (S.faults shelf.old) (S.faults shelf.new)
        × HasCause (status_in result) (change I.left I.faults input.old input.new)
        (change O.written O.faults output.old output.new) (change R.written R.faults report.old report.new) }
    ensures taken { TakesAtMost (I.left input.old) (I.left input.new) (2 ^ 40 + 1) }
    ensures grows { Grows (O.written output.old) (O.written output.new) }
    ensures input { SourceStands I.faults I.mark I.build input.old input.new }
    ensures output { SinkStands O.faults O.mark output.old output.new }
    ensures report { SinkStands R.faults R.mark report.old report.new }
{
    let alloc = host.rt.alloc();
    let asked = match read_words(alloc, words) {
        Ok(asked) => asked,
        Err(refusal) => return Err(ending_of(refusal)),
    };
    let p = open_profile(alloc, shelf, asked.profile)?;
    act(host, &asked, &p, input, output, report)
}

/// Does what the words ask. `words` holds the program's name first. After a fault one line on it follows on the report.
/// Each job that decodes a word passes the gate.
pub fn run<T: AllocGlobal + Threads + Sync, G: Gate, S: Shelf, I: Source, O: Sink, R: Sink>(
    rt: &T,
    gate: &G,
    words: &[String],
    shelf: &mut S,
    mut input: I,
    output: &mut O,
    report: &mut R,
) -> Ended<I>
    // The words and the profile.
    ensures usage { IsUsage (asked (texts_of words.now)) result.status }
    ensures profile { (r : Request) → asked (texts_of words.now) ≡ Some r
        → IfSome (opened (S.texts shelf.old) r.profile) (λ settled.
        Settles settled (change R.written R.faults report.old report.new) result.status) }
    ensures shelf { ShelfRun (asked (texts_of words.now)) S.texts S.faults shelf.old shelf.new result.status }
    ensures early { IsTrue (is_early result.status) → (result.input ≡ input) × (output.new ≡ output.old)
        × EarlyRun (change R.written R.faults report.old report.new) result.status }

    // The actions.
    ensures encode { WhereAsked (asked (texts_of words.now)) (S.texts shelf.old) Action.Encode result.status
        (λ p r. EncodeRun p r.limit (change I.left I.faults input result.input)
        (change O.written O.faults output.old output.new)
        (change R.written R.faults report.old report.new) result.status) }
    ensures decode { WhereAsked (asked (texts_of words.now)) (S.texts shelf.old) Action.Decode result.status
        (λ p r. DecodeRun p r.limit (change I.left I.faults input result.input)
        (change O.written O.faults output.old output.new)
        (change R.written R.faults report.old report.new) result.status) }
    ensures geometry { WhereAsked (asked (texts_of words.now)) (S.texts shelf.old) Action.Geometry result.status
        (λ p r. GeometryRun p
        (change O.written O.faults output.old output.new)
        (change R.written R.faults report.old report.new) result.status) }
    ensures simulate { WhereAsked (asked (texts_of words.now)) (S.texts shelf.old) Action.Simulate result.status
        (λ p r. SimulateRun p r.limit r.task
        (change O.written O.faults output.old output.new)
        (change R.written R.faults report.old report.new) result.status) }
    ensures untouched { (r : Request) → asked (texts_of words.now) ≡ Some r
        → (reads_input r.action ≡ false → result.input ≡ input)
        × (r.action ≡ Action.Geometry → result.status ≡ Status.Done → report.new ≡ report.old) }

    // Where nothing fails.
    ensures complete { (r : Request) (p : Parameters) (octets : List ℕ)
        → IsFeasible (asked (texts_of words.now)) (S.texts shelf.old) (I.left input) r p octets
        → MeetsNoFault (S.faults shelf.old) (S.faults shelf.new) (change I.left I.faults input result.input)
        (change O.written O.faults output.old output.new)
        (change R.written R.faults report.old report.new) result.status
        → HasOutcome (outcome r.action p r.task octets)
        (change O.written O.faults output.old output.new)
        (change R.written R.faults report.old report.new) result.status }

    // The devices.
    ensures cause { ShelfCause result.status (S.faults shelf.old) (S.faults shelf.new)
        × HasCause result.status (change I.left I.faults input result.input)
        (change O.written O.faults output.old output.new) (change R.written R.faults report.old report.new) }
    ensures moved { TakesAtMost (I.left input) (I.left result.input) (2 ^ 40 + 1)
        × Grows (O.written output.old) (O.written output.new) }
    ensures devices { SourceStands I.faults I.mark I.build input result.input
        × SinkStands O.faults O.mark output.old output.new
        × SinkStands R.faults R.mark report.old report.new }
{
    match follow(&Host { rt, gate }, words, shelf, &mut input, output, report) {
        Ok(status) => Ended { status, input },
        Err(ending) => {
            let status = ending.end(report);
            Ended { status, input }
        }
    }
}
