//! The lines of the flight, and where each line goes.
ghost use Rattle.std.specs.Prelude.{◌≡◌, ◌≢◌, ◌+◌, ◌-◌, ◌<◌, ◌≤◌, ℕ, List, [], ◌∷◌, ◌++◌, All, true, false, length, IfOk, IfErr, OnOk, None, Some, slice_get};
ghost use Rattle.run_rules.specs.Happenings.{Happening};
ghost use Rattle.adsc_run.specs.Courses.{Did, KnowsEnds, StandsBehind};
ghost use Rattle.net_script.specs.declared.line.ScriptLine.TheVariants as line_values;
ghost use Rattle.run_rules.specs.Lines.{flight_step, step_of};
ghost use Rattle.run_rules.specs.Orders.{is_burst_line};
ghost use Rattle.run_rules.specs.Stages.{flying};
ghost use Rattle.run_rules.specs.declared.reading.Reading.TheVariants.{Says};
ghost use Rattle.script_reading.specs.Readable.{IsReadable, SaysRightly};

use crate::course::Course;
use crate::ending::bad_line;
use crate::links::link_to;
use acars_envelope::Address;
use adsc_io::NoMemory;
use aircraft_core::Entry;
use flight_samples::Sample;
use net_script::{Code, ScriptLine};
use run_rules::{End, Reading};

impl Course {
    /// Carries out the line of this number, which was read so; answers how the run ends with it, if it does.
    pub(crate) fn take(&mut self, line: u32, reading: &Reading) -> Result<Option<End>, NoMemory>
        requires few { length self.old.craft.setting.addresses ≤ 64 }
        requires count { length self.old.stations.items ≡ length self.old.craft.setting.addresses }
        requires ends { KnowsEnds self.old }
        requires readable { IsReadable reading.now }
        ensures { (log : List Happening) → StandsBehind self.old log → IfOk result (Did (is_burst_line (Some reading.now)) (step_of (flying self.old.craft.setting) log line reading.now) line log self.old self.new) }
    {
        match reading {
            Reading::Bad { code, value } => Ok(Some(bad_line(line, *code, *value))),
            Reading::Says(value) => self.take_value(line, value),
            Reading::Brings(text) => self.take_text(line, text),
        }
    }

    /// Carries out a line without a text: a row for each letter.
    fn take_value(&mut self, line: u32, value: &ScriptLine) -> Result<Option<End>, NoMemory>
        requires few { length self.old.craft.setting.addresses ≤ 64 }
        requires count { length self.old.stations.items ≡ length self.old.craft.setting.addresses }
        requires ends { KnowsEnds self.old }
        requires readable { SaysRightly value.now }
        ensures { (log : List Happening) → StandsBehind self.old log → IfOk result (Did (is_burst_line (Some (Says value.now))) (flight_step self.old.craft.setting log line value.now) line log self.old self.new) }
    {
        match value {
            ScriptLine::S(sample) => self.enter_sample(line, sample),
            ScriptLine::T(t) => self.enter_tick(line, *t),
            ScriptLine::E(on) => self.enter_switch(line, *on),
            ScriptLine::L(address) => self.log_on(line, *address),
            ScriptLine::C(address, request) => self.ask(line, *address, request),
            ScriptLine::K(address, cancel) => self.cancel(line, *address, *cancel),
            ScriptLine::B(address, place) => self.bring(line, *address, *place),
            ScriptLine::R(address, place) => self.receive(line, *address, *place),
            ScriptLine::A(_) => Ok(Some(bad_line(line, Code::Kind, 0))),
            ScriptLine::G { .. } => Ok(Some(bad_line(line, Code::Kind, 0))),
            ScriptLine::U { .. } => Ok(Some(bad_line(line, Code::Kind, 0))),
        }
    }

    // Each of these stands apart since it holds an entry, and a function pays for the size of what it holds each time that it is called.

    /// Enters a sample.
    #[inline(never)]
    fn enter_sample(&mut self, line: u32, sample: &Sample) -> Result<Option<End>, NoMemory>
        ensures { (log : List Happening) → StandsBehind self.old log → IfOk result (Did false (flight_step self.old.craft.setting log line (line_values.S sample.now)) line log self.old self.new) }
    {
        self.enter(Entry::Sample {
            line,
            sample: *sample,
        })
    }

    /// Enters a tick of the clock.
    #[inline(never)]
    fn enter_tick(&mut self, line: u32, t: u32) -> Result<Option<End>, NoMemory>
        requires { t < 1000000000 }
        ensures { (log : List Happening) → StandsBehind self.old log → IfOk result (Did false (flight_step self.old.craft.setting log line (line_values.T t)) line log self.old self.new) }
    {
        self.enter(Entry::Tick { line, t })
    }

    /// Enters that the crew switches the emergency mode on or off.
    #[inline(never)]
    fn enter_switch(&mut self, line: u32, on: bool) -> Result<Option<End>, NoMemory>
        ensures { (log : List Happening) → StandsBehind self.old log → IfOk result (Did false (flight_step self.old.craft.setting log line (line_values.E on)) line log self.old self.new) }
    {
        self.enter(Entry::Crew { line, on })
    }

    /// Logs on to the facility at this address, or says that it isn't listed.
    #[inline(never)]
    fn log_on(&mut self, line: u32, address: Address) -> Result<Option<End>, NoMemory>
        requires few { length self.old.craft.setting.addresses ≤ 64 }
        ensures { (log : List Happening) → StandsBehind self.old log → IfOk result (Did false (flight_step self.old.craft.setting log line (line_values.L address)) line log self.old self.new) }
    {
        match link_to(&self.craft, address) {
            Some(link) => self.enter(Entry::Logon { line, link }),
            None => Ok(Some(bad_line(line, Code::Address, 1))),
        }
    }
}
