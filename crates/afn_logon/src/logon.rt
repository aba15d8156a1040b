//! The state of a logon, and what a contact and an answer make of it.
ghost use Rattle.std.specs.Prelude.{◌≡◌};
ghost use Rattle.afn_logon.specs.Logons.{after_answer, answered};

/// How far an aircraft's logon to a centre has come.
#[derive(Clone, Copy, Debug, PartialEq, Eq)]
pub enum Logon {
    /// No contact was sent.
    Nothing,
    /// A contact was sent, and no answer came after it.
    Sent,
    /// The last answer accepted the contact.
    Accepted,
    /// The last answer rejected the contact, with this code.
    Rejected {
        /// The code of that answer.
        code: u8,
    },
}

impl Logon {
    /// Notes that a contact was sent, whatever came before.
    pub fn contact(&mut self)
        ensures { self.new ≡ Logon.Sent }
    {
        *self = Logon::Sent;
    }

    /// Notes an answer with this code: 0 accepts and another code rejects. An answer before any
    /// contact changes nothing.
    pub fn answer(&mut self, code: u8)
        ensures { self.new ≡ after_answer self.old code }
    {
        *self = match *self {
            Logon::Nothing => Logon::Nothing,
            Logon::Sent | Logon::Accepted | Logon::Rejected { .. } => outcome(code),
        };
    }
}

/// The state that an answer with this code leaves of a contact that was sent.
fn outcome(code: u8) -> Logon
    ensures { result ≡ answered code }
{
    if code == 0 {
        Logon::Accepted
    } else {
        Logon::Rejected { code }
    }
}
