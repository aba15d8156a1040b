//! The lines that the draws give.

ghost use Rattle.std.specs.Prelude.{◌≡◌, ◌<◌, ◌≤◌, ◌+◌, ◌^◌, ◌%◌, pos, ◌-ℤ◌};
ghost use Rattle.generated_scripts.specs.Draws.{draw, given_by, next_state, state_after};
ghost use Rattle.generated_scripts.specs.Generator.{behind_line, clock_behind, further_draws, interval_drawn, line_drawn, line_of_letter, other_drawn, payload_draws, payload_of_kind, sample_drawn, uplink_drawn};
ghost use Rattle.generated_scripts.specs.Making.{making};
ghost use Rattle.generated_scripts.specs.declared.line.MadeLine.TheVariants.{Time};

use crate::line::{MadeLine, MadePayload, MadeSample};

/// How far the making of a script has come.
#[derive(Drop)]
pub(crate) struct Generator {
    /// The state of the generator.
    pub state: u64,
    /// The clock of the `T` lines, in seconds.
    pub clock: u32,
}

impl Generator {
    /// Before the first line of the script of this number.
    pub(crate) fn new(number: u32) -> Generator
        ensures state { result.state ≡ number }
        ensures clock { result.clock ≡ 0 }
    {
        Generator {
            state: u64::from(number),
            clock: 0,
        }
    }

    /// Draws: a number below 2^31.
    #[tactic(auto, unfolding(crate::specs::Draws::next_state, crate::specs::Draws::given_by))]
    fn draw(&mut self) -> u32
        ensures given { result ≡ given_by (next_state self.old.state) }
        ensures state { self.new.state ≡ next_state self.old.state }
        ensures clock { self.new.clock ≡ self.old.clock }
        ensures few { result < 2 ^ 31 }
    {
        self.state = self
            .state
            .wrapping_mul(6_364_136_223_846_793_005)
            .wrapping_add(1_442_695_040_888_963_407);
        (self.state >> 33) as u32
    }

    /// Makes the next line.
    pub(crate) fn next_line(&mut self) -> MadeLine
        requires { self.old.clock + 120 < 2 ^ 32 }
        ensures line { result ≡ line_drawn (making self.old) }
        ensures behind { making self.new ≡ behind_line (making self.old) result }
        ensures later { self.new.clock ≤ self.old.clock + 120 }
    {
        let letter = self.draw() % 10;
        self.next_of_letter(letter)
    }

    /// Makes the line of this letter.
    fn next_of_letter(&mut self, letter: u32) -> MadeLine
        requires letter { letter < 10 }
        requires clock { self.old.clock + 120 < 2 ^ 32 }
        ensures line { result ≡ line_of_letter letter self.old.state self.old.clock }
        ensures state { self.new.state ≡ state_after (further_draws result) self.old.state }
        ensures clock { self.new.clock ≡ clock_behind self.old.clock result }
        ensures later { self.new.clock ≤ self.old.clock + 120 }
    {
        if letter < 3 {
            return MadeLine::Sample(self.next_sample());
        }
        if letter < 6 {
            return self.next_time();
        }
        if letter == 6 {
            return MadeLine::Crew(self.draw() % 2 == 1);
        }
        self.next_uplink()
    }

    /// Draws a sample.
    fn next_sample(&mut self) -> MadeSample
        ensures sample { result ≡ sample_drawn self.old.state }
        ensures state { self.new.state ≡ state_after 6 self.old.state }
        ensures clock { self.new.clock ≡ self.old.clock }
    {
        let lat = less(self.draw() % 1_048_577, 524_288);
        let lon = less(self.draw() % 2_097_152, 1_048_576);
        let alt = column(self.draw() % 10_001);
        let xtk = less(self.draw() % 41, 20);
        let wlat = column(self.draw() % 4);
        let vr = less(self.draw() % 401, 200);
        MadeSample {
            lat,
            lon,
            alt,
            xtk,
            wlat,
            vr,
        }
    }

    /// Moves the clock on by a draw.
    fn next_time(&mut self) -> MadeLine
        requires { self.old.clock + 120 < 2 ^ 32 }
        ensures line { result ≡ Time (self.old.clock + draw self.old.state 1 % 120) }
        ensures state { self.new.state ≡ state_after 1 self.old.state }
        ensures clock { self.new.clock ≡ self.old.clock + draw self.old.state 1 % 120 }
    {
        let more = self.draw() % 120;
        self.clock += more;
        MadeLine::Time(self.clock)
    }

    /// Draws a text.
    fn next_uplink(&mut self) -> MadeLine
        ensures line { result ≡ uplink_drawn self.old.state }
        ensures state { self.new.state ≡ state_after (further_draws result) self.old.state }
        ensures clock { self.new.clock ≡ self.old.clock }
    {
        let place = (self.draw() % 5) as u8;
        let number = (self.draw() % 8) as u8;
        let kind = self.draw() % 6;
        let payload = self.next_payload(kind, number);
        MadeLine::Uplink { place, payload }
    }

    /// Draws what a payload of this kind asks.
    fn next_payload(&mut self, kind: u32, number: u8) -> MadePayload
        requires { kind < 6 }
        ensures payload { result ≡ payload_of_kind kind number (draw self.old.state 1) }
        ensures state { self.new.state ≡ state_after (payload_draws result) self.old.state }
        ensures clock { self.new.clock ≡ self.old.clock }
    {
        if kind == 0 {
            return MadePayload::Demand(number);
        }
        if kind == 1 {
            return MadePayload::Periodic(number, self.next_interval());
        }
        if kind == 2 {
            return MadePayload::Event(number, (1 + self.draw() % 20) as u8);
        }
        if kind == 3 {
            return MadePayload::Emergency(number, self.next_interval());
        }
        if kind == 4 {
            return MadePayload::Cancel(number);
        }
        self.next_other(number)
    }

    /// Draws the octet of a reporting interval.
    fn next_interval(&mut self) -> u8
        ensures interval { result ≡ interval_drawn (draw self.old.state 1) }
        ensures state { self.new.state ≡ state_after 1 self.old.state }
        ensures clock { self.new.clock ≡ self.old.clock }
    {
        (64 + self.draw() % 192) as u8
    }

    /// Draws whether all contracts are cancelled, or the payload is malformed.
    fn next_other(&mut self, number: u8) -> MadePayload
        ensures payload { result ≡ other_drawn number (draw self.old.state 1) }
        ensures state { self.new.state ≡ state_after (payload_draws result) self.old.state }
        ensures clock { self.new.clock ≡ self.old.clock }
    {
        if self.draw() % 8 == 0 {
            return MadePayload::CancelAll;
        }
        MadePayload::Malformed(number)
    }
}

/// A number that was drawn, less an offset.
fn less(drawn: u32, offset: u32) -> i32
    requires drawn { drawn < 2 ^ 30 }
    requires offset { offset < 2 ^ 30 }
    ensures { result ≡ pos drawn -ℤ pos offset }
{
    drawn as i32 - offset as i32
}

/// A number that was drawn, as a column.
fn column(drawn: u32) -> i32
    requires { drawn < 2 ^ 30 }
    ensures { result ≡ pos drawn }
{
    drawn as i32
}
