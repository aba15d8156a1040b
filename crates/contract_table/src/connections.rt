//! The live links of an aircraft, and the messages that they hear.

ghost use Rattle.std.specs.Prelude.{◌≡◌, ◌+◌, ◌<◌, ◌≤◌, ◌++◌, ◌==◌, ◌&&◌, true, not, All, filter, IfOk, IfErr, Some, is_some, map, length, remove, slice_index_or};
ghost use Rattle.arrayvec.specs.ArrayVec.{array_vec_len};
ghost use Rattle.contract_rules.specs.LiveLinks.{has_room};
ghost use Rattle.contract_rules.specs.Messages.{is_request};
ghost use Rattle.due_event.specs.RuleTerms.{rules_profile};
ghost use Rattle.contract_table.specs.Acts.{rules_fault, rules_message};
ghost use Rattle.contract_table.specs.Dues.{dues_in};
ghost use Rattle.contract_table.specs.Messages.{admitted_where, due_by, found_by, heard_by, verdict_by};
ghost use Rattle.contract_table.specs.NextConnection.{accepted, admitted};
ghost use Rattle.contract_table.specs.NextTable.{due_of_malformed};
ghost use Rattle.contract_table.specs.Places.{HasPlace, IsRising, StandsAt, WouldStandAt, connection_on, link_of};
ghost use Rattle.contract_table.specs.Seen.{connection_seen};
ghost use Rattle.contract_table.specs.Changes.{IsAcceptedAt, IsHeard};
ghost use Rattle.contract_table.specs.Sound.{IsSound};
ghost use Rattle.contract_table.specs.Verdicts.{rules_verdict};

use crate::answer::{is_request, negative_acknowledgement, push_answer};
use crate::configuration::Configuration;
use crate::connection::Connection;
use crate::due::Dues;
use crate::verdict::{Verdict, verdict_on};
use adsc_requests::{Message, Refusal};
use arrayvec::ArrayVec;
use due_event::Profile;

/// How many links may be live at once.
const MAX_LIVE_LINKS: usize = 5;

/// The live links, by rising link.
pub(crate) type Connections = ArrayVec<Connection, MAX_LIVE_LINKS>;

/// A message of a link. A live link hears it, and a request admits its link where there is room. What is due is added
/// to `dues`.
pub(crate) fn hear(
    connections: &mut Connections,
    configuration: &Configuration,
    crew: bool,
    time: u32,
    link: u8,
    message: &Message,
    dues: &mut Dues,
)
    requires rising { IsRising (map link_of (map connection_seen connections.old.items)) }
    requires sound { All (IsSound time) connections.old.items }
    requires room { HasPlace configuration.now.reserved link (map connection_seen connections.old.items) }
    requires fits { array_vec_len dues.old.list + 2 ≤ 24 }
    ensures { IsHeard (rules_profile configuration.now.profile) time (rules_message message.now)
        (found_by configuration.now.reserved crew time link (rules_message message.now) (map connection_seen connections.old.items))
        connections.old.items connections.new.items dues.old dues.new }
{
    match place_of(connections.as_slice(), link) {
        Ok(place) => hear_at(
            connections,
            place,
            link,
            configuration.profile,
            message,
            time,
            dues,
        ),
        Err(place) => hear_new(
            connections,
            place,
            configuration,
            crew,
            time,
            link,
            message,
            dues,
        ),
    }
}

/// A message of a link that is not live, and would stand at this place. What is due is added to `dues`.
fn hear_new(
    connections: &mut Connections,
    place: usize,
    configuration: &Configuration,
    crew: bool,
    time: u32,
    link: u8,
    message: &Message,
    dues: &mut Dues,
)
    requires place { WouldStandAt link connections.old.items place }
    requires rising { IsRising (map link_of (map connection_seen connections.old.items)) }
    requires sound { All (IsSound time) connections.old.items }
    requires room { HasPlace configuration.now.reserved link (map connection_seen connections.old.items) }
    requires fits { array_vec_len dues.old.list + 2 ≤ 24 }
    ensures { IsHeard (rules_profile configuration.now.profile) time (rules_message message.now)
        (found_by configuration.now.reserved crew time link (rules_message message.now) (map connection_seen connections.old.items))
        connections.old.items connections.new.items dues.old dues.new }
{
    if is_request(message) {
        hear_request(
            connections,
            place,
            configuration,
            crew,
            time,
            link,
            message,
            dues,
        );
    }
}

/// A request of a link that is not live: where there is room for the link, it is admitted at the place at which it would
/// stand. What is due is added to `dues`.
fn hear_request(
    connections: &mut Connections,
    place: usize,
    configuration: &Configuration,
    crew: bool,
    time: u32,
    link: u8,
    request: &Message,
    dues: &mut Dues,
)
    requires place { WouldStandAt link connections.old.items place }
    requires rising { IsRising (map link_of (map connection_seen connections.old.items)) }
    requires sound { All (IsSound time) connections.old.items }
    requires room { HasPlace configuration.now.reserved link (map connection_seen connections.old.items) }
    requires fits { array_vec_len dues.old.list + 2 ≤ 24 }
    requires asked { is_request (rules_message request.now) ≡ true }
    ensures { IsHeard (rules_profile configuration.now.profile) time (rules_message request.now)
        (admitted_where configuration.now.reserved crew time link (map connection_seen connections.old.items))
        connections.old.items connections.new.items dues.old dues.new }
{
    if has_room(connections.as_slice(), configuration.reserved, link) {
        let connection = admit(link, crew, time, configuration.profile, request, dues);
        connections.insert(place, connection);
    }
}

/// Adds what is due at a payload of a link that could not be read: a negative acknowledgement, where the link is live.
pub(crate) fn answer_malformed(
    connections: &[Connection],
    link: u8,
    refusal: &Refusal,
    dues: &mut Dues,
)
    requires rising { IsRising (map link_of (map connection_seen connections.now)) }
    requires fits { array_vec_len dues.old.list < 24 }
    ensures { dues_in dues.new ≡ dues_in dues.old
        ++ due_of_malformed link (rules_fault refusal.now) (connection_on link (map connection_seen connections.now)) }
{
    if is_live(connections, link) {
        dues.push(link, negative_acknowledgement(refusal));
    }
}

/// Whether a link is among the live ones.
pub(crate) fn is_live(connections: &[Connection], link: u8) -> bool
    requires { IsRising (map link_of (map connection_seen connections.now)) }
    ensures { result ≡ is_some (connection_on link (map connection_seen connections.now)) }
{
    match place_of(connections, link) {
        Ok(_) => true,
        Err(_) => false,
    }
}

/// A message of the live link at this place. What is due is added to `dues`.
fn hear_at(
    connections: &mut Connections,
    place: usize,
    link: u8,
    profile: Profile,
    message: &Message,
    time: u32,
    dues: &mut Dues,
)
    requires place { StandsAt link connections.old.items place }
    requires rising { IsRising (map link_of (map connection_seen connections.old.items)) }
    requires sound { All (IsSound time) connections.old.items }
    requires fits { array_vec_len dues.old.list + 2 ≤ 24 }
    ensures { (none : Connection) → IsHeard (rules_profile profile) time (rules_message message.now)
        (Some (connection_seen (slice_index_or connections.old.items place none)))
        connections.old.items connections.new.items dues.old dues.new }
{
    match answer(&connections.as_slice()[place], message, dues) {
        Verdict::Accepted => accept_at(connections, place, profile, message, time),
        Verdict::Ended => end_at(connections, place),
        Verdict::Refused { .. } | Verdict::Repeated => {}
    }
}

/// Adds what is due at a message of a live link, and tells the verdict on it.
fn answer(connection: &Connection, message: &Message, dues: &mut Dues) -> Verdict
    requires { array_vec_len dues.old.list + 2 ≤ 24 }
    ensures verdict { rules_verdict result ≡ verdict_by (connection_seen connection.now) (rules_message message.now) }
    ensures dues { dues_in dues.new
        ≡ dues_in dues.old ++ due_by (rules_message message.now) (Some (connection_seen connection.now)) }
    ensures len { array_vec_len dues.new.list ≤ array_vec_len dues.old.list + 2 }
{
    let verdict = verdict_on(connection, message);
    push_answer(
        dues,
        connection.link,
        message,
        verdict,
        connection.mode.is_on(),
    );
    verdict
}

/// Carries out an accepted message of the live link at this place.
fn accept_at(
    connections: &mut Connections,
    place: usize,
    profile: Profile,
    message: &Message,
    time: u32,
)
    requires place { place < length connections.old.items }
    requires sound { All (IsSound time) connections.old.items }
    ensures { IsAcceptedAt place (rules_profile profile) time (rules_message message.now) connections.old.items connections.new.items }
{
    connections.as_mut_slice()[place].accept(profile, message, time);
}

/// Ends the session of the live link at this place. Nothing of it is left for a later one.
fn end_at(connections: &mut Connections, place: usize)
    requires { place < length connections.old.items }
    ensures { connections.new.items ≡ remove connections.old.items place }
{
    connections.remove(place);
}

/// The link that a request admits, after the request. What is due at it is added.
fn admit(
    link: u8,
    crew: bool,
    time: u32,
    profile: Profile,
    request: &Message,
    dues: &mut Dues,
) -> Connection
    requires { array_vec_len dues.old.list + 2 ≤ 24 }
    ensures next { connection_seen result
        ≡ accepted (rules_profile profile) time (rules_message request.now) (admitted link crew time) }
    ensures link { result.link ≡ link }
    ensures sound { IsSound time result }
    ensures dues { dues_in dues.new
        ≡ dues_in dues.old ++ due_by (rules_message request.now) (Some (admitted link crew time)) }
{
    let mut connection = Connection::admit(link, crew, time);
    let _accepted = answer(&connection, request, dues);
    connection.accept(profile, request, time);
    connection
}

/// Whether one more link may join the live ones. No more than five are live, and where one of the five is kept for a
/// link, no more than four others.
fn has_room(connections: &[Connection], reserved: Option<u8>, link: u8) -> bool
    ensures { result ≡ has_room reserved link (map link_of (map connection_seen connections.now)) }
{
    match reserved {
        None => connections.len() < MAX_LIVE_LINKS,
        Some(kept) => link == kept || others_than(connections, kept) < MAX_LIVE_LINKS - 1,
    }
}

/// How many live links there are other than this one.
fn others_than(connections: &[Connection], link: u8) -> usize
    ensures { result ≡ length (filter (λ connection. not (link == connection.link)) connections.now) }
{
    connections
        .iter()
        .filter(|connection| link != connection.link)
        .count()
}

/// Where a link stands among the live ones, which have rising numbers: its place, or the place at which it would stand.
pub(crate) fn place_of(connections: &[Connection], link: u8) -> Result<usize, usize>
    ensures live { IfOk result (StandsAt link connections.now) }
    ensures not_live { IfErr result (WouldStandAt link connections.now) }
{
    for (place, connection) in connections.iter().enumerate() {
        if connection.link == link {
            return Ok(place);
        }
        if connection.link > link {
            return Err(place);
        }
    }
    Err(connections.len())
}
