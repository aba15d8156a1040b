//! The outbox of a link.
ghost use Rattle.std.specs.Prelude.{◌≡◌, ◌+◌, ◌*◌, ◌≤◌, ◌<◌, ◌++◌, ℕ, List, All, [], length, IfOk, OnOk};
ghost use Rattle.acars_envelope.specs.declared.texts.Body.TheVariants.{Ads};
ghost use Rattle.acars_envelope.specs.Texts.{sealed_text};
ghost use Rattle.adsc_io.specs.Lines.{IsUnbroken, ended, ended_lines};
ghost use Rattle.aircraft_core.specs.AddedTexts.{listed};
ghost use Rattle.aircraft_core.specs.Outboxes.{HasRoom};

use crate::room::{append, end_line};
use acars_envelope::{Address, Registration, append_ads_text};
use adsc_io::NoMemory;
use std::alloc::Global;
use std::marker::Model;

/// The bytes of the longest text and its newline.
const TEXT_BYTES: usize = 534;

/// What an aircraft sent on one link: its downlinks, each ended by a newline.
///
/// Contracts see what was sent, and for how many more bytes there is room.
#[derive(Drop)]
pub(crate) struct Outbox {
    bytes: Vec<u8>,
}

impl Model for Outbox {
    ghost use Rattle.std.specs.Prelude.{◌-◌, ◌≤◌};
    ghost use Rattle.std.specs.Vec.{vec_len, vec_capacity};
    ghost use Rattle.aircraft_core.specs.Outboxes.{OutboxState};

    ghost Value = { OutboxState };

    ghost view = { λ o. record { sent = o.bytes.items; room = vec_capacity o.bytes - vec_len o.bytes } };

    ghost invariant = { λ o. 534 ≤ vec_capacity o.bytes };
}

impl Outbox {
    /// An empty outbox, with room for one text. `NoMemory` comes for want of memory alone.
    pub(crate) fn new(alloc: Global) -> Result<Outbox, NoMemory>
        ensures { IfOk result (λ outbox. outbox.sent ≡ []) }
    {
        Ok(Outbox {
            bytes: Vec::with_capacity(alloc, TEXT_BYTES)?,
        })
    }

    /// Forgets what was sent. There is room for one text then.
    pub(crate) fn clear(&mut self)
        ensures sent { self.new.sent ≡ [] }
        ensures room { HasRoom self.new }
    {
        self.bytes.clear();
    }

    /// Keeps room for so many more bytes. Where memory runs out, the outbox stands as it was, or
    /// has more room.
    pub(crate) fn reserve(&mut self, bytes: usize) -> Result<(), NoMemory>
        ensures room { OnOk result (bytes ≤ self.new.room) }
        ensures sent { self.new.sent ≡ self.old.sent }
        ensures kept { self.old.room ≤ self.new.room }
    {
        self.bytes.reserve(bytes)?;
        Ok(())
    }

    /// Sends a payload: the text of the aircraft to this ground address, ended by a newline. There
    /// is room for it.
    pub(crate) fn send(&mut self, address: &Address, registration: &Registration, payload: &[u8])
        requires some { 1 ≤ length payload.now }
        requires few { length payload.now ≤ 255 }
        requires room { 2 * length payload.now + 24 ≤ self.old.room }
        ensures sent { self.new.sent ≡ self.old.sent
            ++ ended (sealed_text address.now (Ads registration.now (record { items = payload.now }))) }
        ensures unbroken { IsUnbroken (sealed_text address.now (Ads registration.now
            (record { items = payload.now }))) }
        ensures room { self.old.room ≤ self.new.room + 2 * length payload.now + 24 }
    {
        append_ads_text(&mut self.bytes, address, registration, payload);
        end_line(&mut self.bytes);
    }

    /// Sends a text, ended by a newline. There is room for it.
    pub(crate) fn send_text(&mut self, text: &[u8])
        requires room { length text.now + 1 ≤ self.old.room }
        ensures sent { self.new.sent ≡ self.old.sent ++ ended text.now }
        ensures room { self.old.room ≤ self.new.room + length text.now + 1 }
    {
        append(&mut self.bytes, text);
        end_line(&mut self.bytes);
    }

    /// The text that was sent, without its newline, where one was sent at most.
    pub(crate) fn text(&self) -> Option<&[u8]>
        ensures { (texts : List (List ℕ)) → length texts ≤ 1 → self.now.sent ≡ ended_lines texts
            → listed result ≡ texts }
    {
        match self.bytes.split_last() {
            Some((_, text)) => Some(text),
            None => None,
        }
    }

    /// What was sent.
    pub(crate) fn bytes(&self) -> &[u8]
        ensures { result.now ≡ self.now.sent }
    {
        self.bytes.as_slice()
    }
}
