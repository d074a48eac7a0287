//! Where two rules meet.
ghost use Rattle.mg_rules.specs.Rule.{Rule};
ghost use Rattle.std.specs.Prelude.{◌≡◌, List as ListOf};

use mg_lists::List;

/// Two rules and a place: at an overlap or an inclusion the left side of the second rule begins at
/// the place of the left side of the first one.
#[derive(Clone, Copy, Debug, PartialEq, Eq)]
pub struct Meeting {
    /// The number of the first rule, counted from 1.
    pub first: usize,
    /// The number of the second rule, counted from 1.
    pub second: usize,
    /// The place, counted from 0.
    pub place: usize,
}

/// An overlap or an inclusion in a list.
#[derive(Clone, Copy, Debug, PartialEq, Eq)]
pub struct Overlap {
    /// The number of the first rule, counted from 1.
    pub first: u32,
    /// The number of the second rule, counted from 1.
    pub second: u32,
    /// The place in the left side of the first rule at which that of the second one begins, counted
    /// from 0.
    pub place: u32,
}

impl std::marker::Model for Overlap {
    ghost use Rattle.mg_rules.specs.declared.meeting.Meeting.{Meeting};

    ghost Value = { Meeting };

    ghost view = { λ o. record { first = o.first; second = o.second; place = o.place } };

    ghost inverse = { λ m. record { first = m.first; second = m.second; place = m.place } };
}

/// Overlaps and inclusions, in order.
pub type Overlaps = List<Overlap>;

impl Meeting {
    ghost use Rattle.mg_rules.specs.Meeting.{Meets};
    ghost use Rattle.mg_rules.specs.Listing.{ComesBefore};

    /// One that comes before each overlap and inclusion.
    pub fn before_all() -> Meeting
        ensures value { result ≡ record { first = 0; second = 0; place = 0 } }
        ensures before { (rules : ListOf Rule) (m : Meeting) → Meets rules m →
            ComesBefore result m }
    {
        Meeting {
            first: 0,
            second: 0,
            place: 0,
        }
    }
}
