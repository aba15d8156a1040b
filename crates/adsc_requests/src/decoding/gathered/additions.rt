//! What is known of a request's groups, and one group more.

ghost use Rattle.std.specs.Prelude.{◌≡◌, ◌<◌, ◌-◌, [], ◌∷◌, None, false, IsTrue, FitsSigned, slice_set, Some};
ghost use Rattle.std.specs.Int.{w8};
ghost use Rattle.adsc_requests.specs.Gathered.{gathered_groups};
ghost use Rattle.adsc_requests.specs.Contents.{has_tag, single, octet_8, range_octets, intent_octets};
ghost use Rattle.adsc_requests.specs.Reading.{put};
ghost use Rattle.adsc_requests.specs.Tables.{is_modulus_tag};
ghost use Rattle.adsc_requests.specs.Watching.{is_not_zero, is_watching};

use crate::decoding::gathered::Gathered;
use crate::message::{Intent, Moduli, Range};
use crate::tags::{
    FIRST_MODULUS, INTENT, INTERVAL, LAST_MODULUS, LATERAL, RANGE, VERTICAL_RATE, WAYPOINT,
};

impl Moduli {
    /// No modulus.
    fn none() -> Moduli
        ensures { result.m ≡ None ∷ None ∷ None ∷ None ∷ None ∷ None ∷ [] }
    {
        Moduli { m: [None; 6] }
    }

    /// One modulus more.
    fn with(self, place: usize, modulus: u8) -> Moduli
        requires { place < 6 }
        ensures { result.m ≡ slice_set self.m place (Some modulus) }
    {
        let mut m = self.m;
        m[place] = Some(modulus);
        Moduli { m }
    }
}

impl Gathered {
    /// No group was read.
    pub fn nothing() -> Gathered
        ensures { gathered_groups result ≡ [] }
    {
        Gathered {
            lateral: None,
            interval: None,
            moduli: Moduli::none(),
            vrate: None,
            range: None,
            waypoint: false,
            intent: None,
        }
    }

    /// Whether the group was read.
    pub fn has(&self, tag: u8) -> bool
        ensures { result ≡ has_tag tag (gathered_groups self.now) }
    {
        match tag {
            LATERAL => self.lateral.is_some(),
            INTERVAL => self.interval.is_some(),
            FIRST_MODULUS..=LAST_MODULUS => self.moduli.m[(tag - FIRST_MODULUS) as usize].is_some(),
            VERTICAL_RATE => self.vrate.is_some(),
            RANGE => self.range.is_some(),
            WAYPOINT => self.waypoint,
            INTENT => self.intent.is_some(),
            _ => false,
        }
    }

    /// Whether a group of an event request was read.
    pub fn watches(&self) -> bool
        ensures { result
            ≡ is_watching self.now.lateral self.now.vrate self.now.range self.now.waypoint }
    {
        self.lateral.is_some() || self.vrate.is_some() || self.range.is_some() || self.waypoint
    }

    /// The same and the lateral deviation threshold (group 10), in 0.125 NM and not 0. The group
    /// was not read before.
    pub fn with_lateral(self, threshold: u8) -> Gathered
        requires above_0 { 0 < threshold }
        requires new { has_tag 10 (gathered_groups self) ≡ false }
        ensures { gathered_groups result
            ≡ put (record { tag = 10; octets = single threshold }) (gathered_groups self) }
    {
        let mut gathered = self;
        gathered.lateral = Some(threshold);
        gathered
    }

    /// The same and the octet of the reporting interval (group 11), as sent. The group was not read
    /// before.
    pub fn with_interval(self, octet: u8) -> Gathered
        requires { has_tag 11 (gathered_groups self) ≡ false }
        ensures { gathered_groups result
            ≡ put (record { tag = 11; octets = single octet }) (gathered_groups self) }
    {
        let mut gathered = self;
        gathered.interval = Some(octet);
        gathered
    }

    /// The same and in every how many reports a group stands: the modulus (groups 12 to 17), where
    /// 0 means never. The group was not read before.
    pub fn with_modulus(self, tag: u8, modulus: u8) -> Gathered
        requires tag { IsTrue (is_modulus_tag tag) }
        requires new { has_tag tag (gathered_groups self) ≡ false }
        ensures { gathered_groups result
            ≡ put (record { tag = tag; octets = single modulus }) (gathered_groups self) }
    {
        let mut gathered = self;
        gathered.moduli = self.moduli.with((tag - FIRST_MODULUS) as usize, modulus);
        gathered
    }

    /// The same and the vertical rate threshold (group 18), in 64 ft/min and not 0. The group was
    /// not read before.
    pub fn with_vrate(self, threshold: i8) -> Gathered
        requires not_0 { IsTrue (is_not_zero threshold) }
        requires new { has_tag 18 (gathered_groups self) ≡ false }
        ensures { gathered_groups result
            ≡ put (record { tag = 18; octets = octet_8 threshold }) (gathered_groups self) }
    {
        let mut gathered = self;
        gathered.vrate = Some(threshold);
        gathered
    }

    /// The same and the altitude range (group 19). The group was not read before.
    pub fn with_range(self, range: Range) -> Gathered
        requires { has_tag 19 (gathered_groups self) ≡ false }
        ensures { gathered_groups result
            ≡ put (record { tag = 19; octets = range_octets range }) (gathered_groups self) }
    {
        let mut gathered = self;
        gathered.range = Some(range);
        gathered
    }

    /// The same, with changes of the active waypoint reported (group 20). The group was not read
    /// before.
    pub fn with_waypoint(self) -> Gathered
        requires { has_tag 20 (gathered_groups self) ≡ false }
        ensures { gathered_groups result
            ≡ put (record { tag = 20; octets = [] }) (gathered_groups self) }
    {
        let mut gathered = self;
        gathered.waypoint = true;
        gathered
    }

    /// The same and the aircraft intent (group 21). The group was not read before.
    pub fn with_intent(self, intent: Intent) -> Gathered
        requires { has_tag 21 (gathered_groups self) ≡ false }
        ensures { gathered_groups result
            ≡ put (record { tag = 21; octets = intent_octets intent }) (gathered_groups self) }
    {
        let mut gathered = self;
        gathered.intent = Some(intent);
        gathered
    }
}
