//! What an aircraft is made of, link by link.
ghost use Rattle.std.specs.Prelude.{◌≡◌, [], All, length, IfOk};
ghost use Rattle.afn_logon.specs.declared.logon.Logon.TheVariants.{Nothing};

use crate::outbox::Outbox;
use acars_envelope::Address;
use adsc_io::NoMemory;
use afn_logon::Logon;
use std::alloc::Global;

/// A copy of these addresses.
pub(crate) fn copied(alloc: Global, links: &[Address]) -> Result<Vec<Address>, NoMemory>
    ensures { IfOk result (λ addresses. addresses.items ≡ links.now) }
{
    Ok(Vec::from_slice(alloc, links)?)
}

/// So many empty outboxes, each with room for one text.
pub(crate) fn empty_outboxes(alloc: Global, links: usize) -> Result<Vec<Outbox>, NoMemory>
    ensures count { IfOk result (λ outboxes. length outboxes.items ≡ links) }
    ensures empty { IfOk result (λ outboxes. All (λ outbox. outbox.sent ≡ []) outboxes.items) }
{
    let mut outboxes = Vec::new(alloc);
    for _ in 0..links {
        outboxes.push(Outbox::new(alloc)?)?;
    }
    Ok(outboxes)
}

/// So many logons of which no contact was sent.
pub(crate) fn no_logons(alloc: Global, links: usize) -> Result<Vec<Logon>, NoMemory>
    ensures count { IfOk result (λ logons. length logons.items ≡ links) }
    ensures nothing { IfOk result (λ logons. All (λ logon. logon ≡ Nothing) logons.items) }
{
    let mut logons = Vec::new(alloc);
    for _ in 0..links {
        logons.push(Logon::Nothing)?;
    }
    Ok(logons)
}
