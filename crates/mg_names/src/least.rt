//! The least of the causes that a statement shows.

ghost use Rattle.std.specs.Prelude.{◌≡◌, ◌++◌, ◌↔◌, None, List as ListOf, IsTrue};
ghost use Rattle.mg_names.specs.Cause.{Shown, at};
ghost use Rattle.mg_names.specs.Least.{IsLeastOf, IsNotAfter, shown_of, least_of};

use mg_lex::Cause;
use std::marker::Model;

/// A cause, and the place in the line where it stands, from 0.
#[derive(Clone, Copy, Debug, PartialEq, Eq)]
pub(crate) struct Fault {
    pub(crate) place: u32,
    pub(crate) cause: Cause,
}

impl Fault {
    /// Whether it is answered before the other, or is the same.
    fn is_least(self, other: Fault) -> bool
        ensures { IsTrue result ↔ IsNotAfter (shown_of self) (shown_of other) }
    {
        self.place < other.place || self.place == other.place && !other.cause.is_before(self.cause)
    }
}

/// The least of the causes that have been found.
#[derive(Drop)]
pub(crate) struct Found {
    least: Option<Fault>,
}

impl Model for Found {
    ghost use Rattle.std.specs.Prelude.{Option};
    ghost use Rattle.mg_names.specs.Cause.{Shown};
    ghost use Rattle.mg_names.specs.Least.{least_of};

    ghost Value = { Option Shown };

    ghost view = { λ f. least_of f.least };
}

impl Found {
    pub(crate) fn new() -> Found
        ensures { result ≡ None }
    {
        Found { least: None }
    }

    /// Takes one more cause.
    pub(crate) fn offer(&mut self, place: u32, cause: Cause)
        ensures { (all : ListOf Shown) → IsLeastOf all self.old →
            IsLeastOf (all ++ at cause place) self.new }
    {
        let fault = Fault { place, cause };
        match self.least {
            None => self.least = Some(fault),
            Some(least) => {
                if !least.is_least(fault) {
                    self.least = Some(fault);
                }
            }
        }
    }

    /// The least cause, if there is one.
    pub(crate) fn least(&self) -> Option<Fault>
        ensures { least_of result ≡ self.now }
    {
        self.least
    }
}
