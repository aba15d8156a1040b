//! The stations of an aircraft's links: what one of them does.
ghost use Rattle.std.specs.Prelude.{◌≡◌, ◌≢◌, ◌-◌, ◌<◌, ◌≤◌, ℕ, List, ◌∷◌, None, Some, IfErr, slice_get, false, length, IsSome, IfOk, OnOk, slice_index_or, slice_set};
ghost use Rattle.adsc_requests.specs.Kind.{kind_in};
ghost use Rattle.adsc_requests.specs.declared.kind.Kind.TheVariants as kinds;
ghost use Rattle.aircraft_core.specs.Setting.{Setting, address_of};
ghost use Rattle.centre_core.specs.Hearing.{Hearing, Says};
ghost use Rattle.net_script.specs.declared.line.Cancel.TheVariants as cancels;
ghost use Rattle.run_rules.specs.Happenings.{Happening, Heard, history, is_raw};
ghost use Rattle.run_rules.specs.Lines.{ask_step, cancel_step};
ghost use Rattle.adsc_run.specs.Courses.{AreStations, StationsDid};
ghost use Rattle.adsc_run.specs.Stations.{StationStands};
ghost use Rattle.adsc_run.specs.declared.station.Station.{Station as StationValue};

use crate::carried::SentText;
use crate::station::{Role, Station};
use adsc_io::NoMemory;
use adsc_requests::Message;
use net_script::Cancel;
use run_rules::End;

/// The station of this link asks by this request.
pub(crate) fn ask_at(
    stations: &mut Vec<Station>,
    link: u8,
    line: u32,
    request: &Message,
) -> Result<Option<End>, NoMemory>
    requires link { link < length stations.old.items }
    requires asks { IsSome (kind_in request.now) }
    ensures { (setting : Setting) (log : List Happening) → AreStations setting log stations.old.items → is_raw link log ≡ false
        → IfOk result (StationsDid (ask_step (history link log) line link request.now) line setting link log stations.old.items stations.new.items) }
{
    stations[link as usize].ask(line, request)
}

/// The station of this link cancels so.
pub(crate) fn cancel_at(
    stations: &mut Vec<Station>,
    link: u8,
    line: u32,
    cancel: Cancel,
) -> Result<Option<End>, NoMemory>
    requires link { link < length stations.old.items }
    requires no_demand { cancel ≢ cancels.Of kinds.Demand }
    ensures { (setting : Setting) (log : List Happening) → AreStations setting log stations.old.items → is_raw link log ≡ false
        → IfOk result (StationsDid (cancel_step (history link log) line link cancel) line setting link log stations.old.items stations.new.items) }
{
    stations[link as usize].cancel(line, cancel)
}

/// The station of this link hears a text.
pub(crate) fn hear_at(
    stations: &mut Vec<Station>,
    link: u8,
    text: &[u8],
) -> Result<Option<End>, NoMemory>
    requires link { link < length stations.old.items }
    ensures end { IfOk result (λ end. end ≡ None) }
    ensures heard { OnOk result ((setting : Setting) (log : List Happening) (line place : ℕ) → AreStations setting log stations.old.items → is_raw link log ≡ false
        → (hearing : Hearing) × Says (address_of setting link) setting.registration text.now hearing
        × (station : StationValue) × (stations.new.items ≡ slice_set stations.old.items link station)
        × StationStands setting link (Heard line link place hearing ∷ log) station) }
{
    stations[link as usize].hear(text)
}

/// The address of this link has this role from now on.
pub(crate) fn give_role(stations: &mut Vec<Station>, link: u8, role: Role)
    requires { link < length stations.old.items }
    ensures { (none : StationValue) → stations.new.items ≡ slice_set stations.old.items link (record (slice_index_or stations.old.items link none) { role = role }) }
{
    stations[link as usize].role = role;
}

/// The role of the address of this link.
pub(crate) fn role_at(stations: &Vec<Station>, link: u8) -> Role
    requires { link < length stations.now.items }
    ensures { (none : StationValue) → result ≡ (slice_index_or stations.now.items link none).role }
{
    stations[link as usize].role
}

/// What the station of this link sent at this place, counted from 1; or how much it sent.
pub(crate) fn sent_by(stations: &Vec<Station>, link: u8, place: u32) -> Result<SentText, u32>
    requires link { link < length stations.now.items }
    requires place { 1 ≤ place }
    ensures there { IfOk result (λ sent. (none : StationValue)
        → slice_get (slice_index_or stations.now.items link none).sent.items (place - 1) ≡ Some sent) }
    ensures none { IfErr result (λ count. (none : StationValue)
        → (slice_get (slice_index_or stations.now.items link none).sent.items (place - 1) ≡ None)
        × (count ≡ length (slice_index_or stations.now.items link none).sent.items)) }
{
    stations[link as usize].sent_at(place)
}
