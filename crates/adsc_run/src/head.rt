//! The head of a script: its three first lines, which make the aircraft.
ghost use Rattle.std.specs.Prelude.{◌≡◌, ◌≢◌, ◌+◌, ◌≤◌, ℕ, List, [], ◌∷◌, ◌++◌, length, IfOk, IfErr, Err};
ghost use Rattle.std.specs.declared.option.Option.{Option as OptionValue};
ghost use Rattle.adsc_io.specs.Causes.{Rose};
ghost use Rattle.aircraft_core.specs.declared.who.Who.{Who as WhoValue};
ghost use Rattle.net_script.specs.declared.line.ScriptLine.TheVariants as line_values;
ghost use Rattle.run_rules.specs.Stages.{Stage, begun, named, linked, flying, setting_with};
ghost use Rattle.run_rules.specs.declared.end.End.TheVariants.{Done};
ghost use Rattle.run_rules.specs.declared.reading.Reading.{Reading as ReadingValue};
ghost use Rattle.run_rules.specs.declared.reading.Reading.TheVariants.{Says};
ghost use Rattle.adsc_run.specs.Feeds.{HasRead, found_in, line_read};
ghost use Rattle.script_reading.specs.Readable.{AreLinks, SaysRightly};
ghost use Rattle.adsc_run.specs.UnderWay.{IsInHead, IsInStage, StopsBy, StopsInHead, StopsSaying};

use crate::ending::bad_line;
use crate::fault::RunFault;
use crate::feed::{Feed, Next};
use adsc_io::{NoMemory, Source};
use aircraft_core::{Craft, Who};
use flight_samples::Sample;
use net_script::{Addresses, Code, ScriptLine};
use run_rules::{End, Reading};
use std::alloc::Global;

/// Why the head makes no aircraft.
#[derive(Clone, Copy)]
pub(crate) enum Stop {
    /// The run ends in the head.
    Ended(End),
    /// The script can't be run.
    Fault(RunFault),
}

/// The ground addresses of the second line, and the place in them of the one for which a connection is kept, if any.
#[derive(Drop)]
pub(crate) struct GroundLinks {
    pub(crate) addresses: Addresses,
    pub(crate) reserved: Option<u8>,
}

/// The aircraft that the head makes.
pub(crate) fn read_head<S: Source>(
    alloc: Global,
    feed: &mut Feed,
    source: &mut S,
) -> Result<Craft, Stop>
    requires { (before : OptionValue (List ℕ)) × IsInStage before (S.left source.old) feed.old.lines 0 begun }
    ensures went { IfOk result (λ craft. (before : OptionValue (List ℕ)) → IsInStage before (S.left source.old) feed.old.lines 0 (begun) → IsInStage before (S.left source.new) feed.new.lines 3 (flying craft.setting)) }
    ensures links { IfOk result (λ craft. length craft.setting.addresses ≤ 64) }
    ensures first { IfOk result (λ craft. craft.journal ≡ []) }
    ensures stopped { IfErr result (λ stop. (before : OptionValue (List ℕ)) → IsInStage before (S.left source.old) feed.old.lines 0 (begun) → StopsInHead before stop) }
    ensures undone { IfErr result (λ stop. stop ≢ Stop.Ended Done) }
    ensures read { result ≡ Err (Stop.Fault RunFault.Read) → Rose (S.faults source.old) (S.faults source.new) }
    ensures kept { result ≢ Err (Stop.Fault RunFault.Read) → S.faults source.new ≡ S.faults source.old }
{
    let who = read_who(feed, source)?;
    let ground = read_ground(feed, source)?;
    let first = read_first(feed, source)?;
    match Craft::new(
        alloc,
        who,
        ground.addresses.as_slice(),
        ground.reserved,
        first,
    ) {
        Ok(craft) => Ok(craft),
        Err(NoMemory) => Err(Stop::Fault(RunFault::NoMemory)),
    }
}

/// Who the aircraft of the first line is.
fn read_who<S: Source>(feed: &mut Feed, source: &mut S) -> Result<Who, Stop>
    requires { (before : OptionValue (List ℕ)) × IsInStage before (S.left source.old) feed.old.lines 0 begun }
    ensures went { IfOk result (λ who. (before : OptionValue (List ℕ)) → IsInStage before (S.left source.old) feed.old.lines 0 (begun) → IsInStage before (S.left source.new) feed.new.lines 1 (named who)) }
    ensures stopped { IfErr result (λ stop. (before : OptionValue (List ℕ)) → IsInStage before (S.left source.old) feed.old.lines 0 (begun) → StopsInHead before stop) }
    ensures undone { IfErr result (λ stop. stop ≢ Stop.Ended Done) }
    ensures read { result ≡ Err (Stop.Fault RunFault.Read) → Rose (S.faults source.old) (S.faults source.new) }
    ensures kept { result ≢ Err (Stop.Fault RunFault.Read) → S.faults source.new ≡ S.faults source.old }
{
    let said = read_said(1, feed, source)?;
    who_said(said)
}

/// Who the aircraft is, where the line says it.
fn who_said(said: ScriptLine) -> Result<Who, Stop>
    ensures unread { result ≢ Err (Stop.Fault RunFault.Read) }
    ensures undone { IfErr result (λ stop. stop ≢ Stop.Ended Done) }
    ensures said { IfOk result (λ who. said ≡ line_values.A who) }
    ensures stopped { IfErr result (StopsSaying 1 begun said) }
{
    if let ScriptLine::A(who) = said {
        return Ok(who);
    }
    Err(Stop::Ended(bad_line(1, Code::Head, 0)))
}

/// The ground addresses of the second line.
fn read_ground<S: Source>(feed: &mut Feed, source: &mut S) -> Result<GroundLinks, Stop>
    requires { (before : OptionValue (List ℕ)) × (who : WhoValue) × IsInStage before (S.left source.old) feed.old.lines 1 (named who) }
    ensures went { IfOk result (λ ground. (before : OptionValue (List ℕ)) (who : WhoValue) → IsInStage before (S.left source.old) feed.old.lines 1 (named who) → IsInStage before (S.left source.new) feed.new.lines 2 (linked who ground.addresses.items ground.reserved)) }
    ensures links { IfOk result (λ ground. AreLinks ground.addresses.items ground.reserved) }
    ensures stopped { IfErr result (λ stop. (before : OptionValue (List ℕ)) (who : WhoValue) → IsInStage before (S.left source.old) feed.old.lines 1 (named who) → StopsInHead before stop) }
    ensures undone { IfErr result (λ stop. stop ≢ Stop.Ended Done) }
    ensures read { result ≡ Err (Stop.Fault RunFault.Read) → Rose (S.faults source.old) (S.faults source.new) }
    ensures kept { result ≢ Err (Stop.Fault RunFault.Read) → S.faults source.new ≡ S.faults source.old }
{
    let said = read_said(2, feed, source)?;
    ground_said(said)
}

/// The ground addresses, where the line says them.
fn ground_said(said: ScriptLine) -> Result<GroundLinks, Stop>
    ensures unread { result ≢ Err (Stop.Fault RunFault.Read) }
    ensures undone { IfErr result (λ stop. stop ≢ Stop.Ended Done) }
    ensures said { IfOk result (λ ground. said ≡ line_values.G ground.addresses ground.reserved) }
    ensures stopped { IfErr result (λ stop. (who : WhoValue) → StopsSaying 2 (named who) said stop) }
{
    match said {
        ScriptLine::G {
            addresses,
            reserved,
        } => Ok(GroundLinks {
            addresses,
            reserved,
        }),
        _ => Err(Stop::Ended(bad_line(2, Code::Head, 0))),
    }
}

/// The first sample, of the third line.
fn read_first<S: Source>(feed: &mut Feed, source: &mut S) -> Result<Sample, Stop>
    requires { (before : OptionValue (List ℕ)) × (who : WhoValue) × (addresses : List (List ℕ)) × (kept : OptionValue ℕ)
        × IsInStage before (S.left source.old) feed.old.lines 2 (linked who addresses kept) }
    ensures went { IfOk result (λ first. (before : OptionValue (List ℕ)) (who : WhoValue) (addresses : List (List ℕ)) (kept : OptionValue ℕ)
        → IsInStage before (S.left source.old) feed.old.lines 2 (linked who addresses kept) → IsInStage before (S.left source.new) feed.new.lines 3 (flying (setting_with who addresses kept first))) }
    ensures stopped { IfErr result (λ stop. (before : OptionValue (List ℕ)) (who : WhoValue) (addresses : List (List ℕ)) (kept : OptionValue ℕ)
        → IsInStage before (S.left source.old) feed.old.lines 2 (linked who addresses kept) → StopsInHead before stop) }
    ensures undone { IfErr result (λ stop. stop ≢ Stop.Ended Done) }
    ensures read { result ≡ Err (Stop.Fault RunFault.Read) → Rose (S.faults source.old) (S.faults source.new) }
    ensures kept { result ≢ Err (Stop.Fault RunFault.Read) → S.faults source.new ≡ S.faults source.old }
{
    let said = read_said(3, feed, source)?;
    sample_said(said)
}

/// The sample, where the line says one.
fn sample_said(said: ScriptLine) -> Result<Sample, Stop>
    ensures unread { result ≢ Err (Stop.Fault RunFault.Read) }
    ensures undone { IfErr result (λ stop. stop ≢ Stop.Ended Done) }
    ensures said { IfOk result (λ first. said ≡ line_values.S first) }
    ensures stopped { IfErr result (λ stop. (who : WhoValue) (addresses : List (List ℕ)) (kept : OptionValue ℕ)
        → StopsSaying 3 (linked who addresses kept) said stop) }
{
    match said {
        ScriptLine::S(sample) => Ok(sample),
        _ => Err(Stop::Ended(bad_line(3, Code::Head, 0))),
    }
}

/// What the next line says, which has this number in the head.
fn read_said<S: Source>(number: u32, feed: &mut Feed, source: &mut S) -> Result<ScriptLine, Stop>
    requires { (before : OptionValue (List ℕ)) × (readings : List ReadingValue) × HasRead before (S.left source.old) feed.old.lines readings }
    ensures said { IfOk result (λ said. (before : OptionValue (List ℕ)) (readings : List ReadingValue)
        → HasRead before (S.left source.old) feed.old.lines readings → HasRead before (S.left source.new) feed.new.lines (readings ++ Says said ∷ [])) }
    ensures rightly { IfOk result SaysRightly }
    ensures stopped { IfErr result (λ stop. (before : OptionValue (List ℕ)) (count : ℕ) (stage : Stage) → IsInHead stage → number ≡ count + 1
        → IsInStage before (S.left source.old) feed.old.lines count (stage) → StopsInHead before stop) }
    ensures undone { IfErr result (λ stop. stop ≢ Stop.Ended Done) }
    ensures read { result ≡ Err (Stop.Fault RunFault.Read) → Rose (S.faults source.old) (S.faults source.new) }
    ensures kept { result ≢ Err (Stop.Fault RunFault.Read) → S.faults source.new ≡ S.faults source.old }
{
    match feed.next(source) {
        Ok(next) => said_in(number, next, feed.take_reading()),
        Err(fault) => Err(Stop::Fault(fault)),
    }
}

/// What the line of this number in the head says, which is read so, if it stands next and says something.
fn said_in(number: u32, next: Next, reading: Reading) -> Result<ScriptLine, Stop>
    ensures unread { result ≢ Err (Stop.Fault RunFault.Read) }
    ensures undone { IfErr result (λ stop. stop ≢ Stop.Ended Done) }
    ensures said { IfOk result (λ said. found_in reading next ≡ line_read (Says said)) }
    ensures stopped { IfErr result (λ stop. (stage : Stage) → IsInHead stage → StopsBy number stage (found_in reading next) stop) }
{
    match next {
        Next::Line => said_by(number, reading),
        Next::End => Err(Stop::Ended(bad_line(number, Code::Head, 0))),
        Next::Limit => Err(Stop::Ended(End::Limit { line: number })),
    }
}

/// What a line of the head says that is read so.
fn said_by(number: u32, reading: Reading) -> Result<ScriptLine, Stop>
    ensures unread { result ≢ Err (Stop.Fault RunFault.Read) }
    ensures undone { IfErr result (λ stop. stop ≢ Stop.Ended Done) }
    ensures said { IfOk result (λ said. reading ≡ Says said) }
    ensures stopped { IfErr result (λ stop. (stage : Stage) → IsInHead stage → StopsBy number stage (line_read reading) stop) }
{
    match reading {
        Reading::Says(said) => Ok(said),
        Reading::Bad { code, value } => Err(Stop::Ended(bad_line(number, code, value))),
        Reading::Brings(_) => Err(Stop::Ended(bad_line(number, Code::Head, 0))),
    }
}
