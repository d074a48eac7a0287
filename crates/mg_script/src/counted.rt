//! What a script may hold only so many of.

ghost use Rattle.std.specs.Prelude.{◌≡◌, ◌↔◌, ◌+◌, ◌^◌, ◌<◌, [], set, None, Some, IsTrue};
ghost use Rattle.mg_script.specs.Count.{limit_of, count_of, counted_number};
ghost use Rattle.mg_script.specs.Cause.{IsOneTooMany};
ghost use Rattle.mg_script.specs.Reader.{AddsOne, numbers};
ghost use Rattle.mg_script.specs.Script.{no_counts, counted_anew};

use mg_present::{MOST_GENERATORS, MOST_RELATORS, MOST_SUBGROUP_WORDS};

/// What is counted in a script. The numbers of generators, relators and subgroup words are those of one
/// statement, the others those of the whole script.
#[derive(Clone, Copy, Debug, PartialEq, Eq)]
pub enum Counted {
    Groups,
    Words,
    Subgroups,
    Maps,
    Questions,
    Generators,
    Relators,
    /// Words of a subgroup.
    Members,
    /// Reports of all forms.
    Reports,
}

/// The most groups of a script.
pub const MOST_GROUPS: u32 = 64;

/// The most declared words of a script.
pub const MOST_WORDS: u32 = 1_024;

/// The most subgroups of a script.
pub const MOST_SUBGROUPS: u32 = 256;

/// The most maps of a script.
pub const MOST_MAPS: u32 = 256;

/// The most questions of a script.
pub const MOST_QUESTIONS: u32 = 1_024;

/// The most reports of a script, of all forms together.
pub const MOST_REPORTS: u32 = 64;

/// The most letters that all words of a script may have together, written out.
pub const LETTER_LIMIT: u32 = 1_000_000;

impl Counted {
    /// How many a script, or a statement, may have.
    pub fn limit(self) -> u32
        ensures { result ≡ limit_of self }
    {
        match self {
            Counted::Groups => MOST_GROUPS,
            Counted::Words => MOST_WORDS,
            Counted::Subgroups => MOST_SUBGROUPS,
            Counted::Maps => MOST_MAPS,
            Counted::Questions => MOST_QUESTIONS,
            Counted::Generators => MOST_GENERATORS,
            Counted::Relators => MOST_RELATORS as u32,
            Counted::Members => MOST_SUBGROUP_WORDS as u32,
            Counted::Reports => MOST_REPORTS,
        }
    }
}

/// How many of each there are so far, and how many letters all words have together.
#[derive(Clone, Copy, Debug, PartialEq, Eq)]
pub struct Counts {
    pub groups: u32,
    pub words: u32,
    pub subgroups: u32,
    pub maps: u32,
    pub questions: u32,
    pub generators: u32,
    pub relators: u32,
    pub members: u32,
    pub reports: u32,
    pub letters: u32,
}

impl Counts {
    /// Those before a script.
    pub(crate) fn none() -> Counts
        ensures { result ≡ no_counts }
    {
        Counts {
            groups: 0,
            words: 0,
            subgroups: 0,
            maps: 0,
            questions: 0,
            generators: 0,
            relators: 0,
            members: 0,
            reports: 0,
            letters: 0,
        }
    }

    /// Those before the next statement: generators, relators and words of subgroups are counted anew.
    pub(crate) fn anew(self) -> Counts
        ensures { result ≡ counted_anew self }
    {
        Counts {
            generators: 0,
            relators: 0,
            members: 0,
            ..self
        }
    }

    /// How many there are of these.
    pub fn of(self, counted: Counted) -> u32
        ensures { result ≡ count_of self counted }
    {
        match counted {
            Counted::Groups => self.groups,
            Counted::Words => self.words,
            Counted::Subgroups => self.subgroups,
            Counted::Maps => self.maps,
            Counted::Questions => self.questions,
            Counted::Generators => self.generators,
            Counted::Relators => self.relators,
            Counted::Members => self.members,
            Counted::Reports => self.reports,
        }
    }

    /// Whether one more that is counted so is one too many.
    pub(crate) fn is_full(self, counted: Option<Counted>) -> bool
        ensures { IsTrue result ↔ IsOneTooMany self [] counted }
    {
        match counted {
            Some(counted) => self.of(counted) >= counted.limit(),
            None => false,
        }
    }

    /// The counts with one more of these.
    fn one_more(self, counted: Counted) -> Counts
        requires { count_of self counted < limit_of counted }
        ensures numbers { numbers result ≡ set (numbers self) (counted_number counted)
            (count_of self counted + 1) }
        ensures letters { result.letters ≡ self.letters }
    {
        match counted {
            Counted::Groups => Counts {
                groups: self.groups + 1,
                ..self
            },
            Counted::Words => Counts {
                words: self.words + 1,
                ..self
            },
            Counted::Subgroups => Counts {
                subgroups: self.subgroups + 1,
                ..self
            },
            Counted::Maps => Counts {
                maps: self.maps + 1,
                ..self
            },
            Counted::Questions => Counts {
                questions: self.questions + 1,
                ..self
            },
            Counted::Generators => Counts {
                generators: self.generators + 1,
                ..self
            },
            Counted::Relators => Counts {
                relators: self.relators + 1,
                ..self
            },
            Counted::Members => Counts {
                members: self.members + 1,
                ..self
            },
            Counted::Reports => Counts {
                reports: self.reports + 1,
                ..self
            },
        }
    }

    /// The counts with one more that is counted so.
    pub(crate) fn with(self, counted: Option<Counted>) -> Counts
        requires { ¬ IsOneTooMany self [] counted }
        ensures counted { AddsOne counted self result }
        ensures letters { result.letters ≡ self.letters }
    {
        match counted {
            Some(counted) => self.one_more(counted),
            None => self,
        }
    }

    /// The counts with so many letters more.
    pub(crate) fn with_letters(self, letters: u32) -> Counts
        requires { self.letters + letters < 2 ^ 32 }
        ensures numbers { numbers result ≡ numbers self }
        ensures letters { result.letters ≡ self.letters + letters }
    {
        Counts {
            letters: self.letters + letters,
            ..self
        }
    }
}
