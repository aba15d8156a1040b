//! What holds of every value and every text, whoever writes or reads it.
ghost use Rattle.std.specs.Prelude.{◌≡◌, ℕ, List, ◌⊎◌, ◌≤◌, length, true};
ghost use Rattle.acars_envelope.specs.Bodies.{is_well_formed};
ghost use Rattle.acars_envelope.specs.declared.texts.Body.TheVariants.{Afn};
ghost use Rattle.afn_logon.specs.Contents.{AnswerData, ContactData, IsAnswer, IsContact, answer_data, application_data, contact_data, position_data};
ghost use Rattle.afn_logon.specs.Forms.{IsAnswerText, IsContactText, IsSomeAnswer, IsSomeContact};
ghost use Rattle.afn_logon.specs.Mismatch.{IsFirstMismatch};
ghost use Rattle.afn_logon.specs.Texts.{answer_text, contact_text};
ghost use Rattle.afn_logon.specs.declared.answer.Answer.{Answer as AnswerValue};
ghost use Rattle.afn_logon.specs.declared.application.Application.{Application as ApplicationValue};
ghost use Rattle.afn_logon.specs.declared.contact.Contact.{Contact as ContactValue};
ghost use Rattle.afn_logon.specs.declared.position.Position.{Position as PositionValue};

/// Each text is read in one way: it is of one contact or has one first mismatch, and it is of one
/// answer or has one first mismatch.
pub fn one_reading()
    ensures contact { (text : List ℕ) → IsSomeContact text
        ⊎ ((place : ℕ) × IsFirstMismatch IsSomeContact text place) }
    ensures answer { (text : List ℕ) → IsSomeAnswer text
        ⊎ ((place : ℕ) × IsFirstMismatch IsSomeAnswer text place) }
    ensures one_contact { (c d : ContactData) (text : List ℕ) →
        IsContactText c text → IsContactText d text → c ≡ d }
    ensures one_answer { (a b : AnswerData) (text : List ℕ) →
        IsAnswerText a text → IsAnswerText b text → a ≡ b }
    ensures contact_place { (text : List ℕ) (a b : ℕ) →
        IsFirstMismatch IsSomeContact text a → IsFirstMismatch IsSomeContact text b → a ≡ b }
    ensures answer_place { (text : List ℕ) (a b : ℕ) →
        IsFirstMismatch IsSomeAnswer text a → IsFirstMismatch IsSomeAnswer text b → a ≡ b }
{}

/// What contracts see of a value is all of it: two values that are seen alike are one.
pub fn same_data_same_value()
    ensures position { (a b : PositionValue) → position_data a ≡ position_data b → a ≡ b }
    ensures application { (a b : ApplicationValue) →
        application_data a ≡ application_data b → a ≡ b }
    ensures contact { (a b : ContactValue) → contact_data a ≡ contact_data b → a ≡ b }
    ensures answer { (a b : AnswerValue) → answer_data a ≡ answer_data b → a ≡ b }
{}

/// A contact text has at most 93 characters and an answer text at most 61, and an envelope carries
/// each.
pub fn texts_are_carried()
    ensures contact_size { (c : ContactData) → IsContact c → length (contact_text c) ≤ 93 }
    ensures answer_size { (a : AnswerData) → IsAnswer a → length (answer_text a) ≤ 61 }
    ensures contact { (c : ContactData) → IsContact c →
        is_well_formed (Afn (record { items = contact_text c })) ≡ true }
    ensures answer { (a : AnswerData) → IsAnswer a →
        is_well_formed (Afn (record { items = answer_text a })) ≡ true }
{}
