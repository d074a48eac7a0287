//! Plans as a session runs them.
use mg_lex::{Names, Text};
use mg_lists::List;
use mg_present::{Ask, Presentation};
use mg_words::Procedure;
use std::marker::Model;

/// How many pairs of a question and a procedure the grants of a plan may name.
pub const MOST_SEARCHES: usize = 2_048;

/// How many steps a plan may have: 2^32 - 2, so that searches are counted in 32 bits.
pub const MOST_STEPS: usize = 4_294_967_294;

/// A declared group.
#[derive(Debug, Drop)]
pub struct PlanGroup {
    /// Its name.
    pub name: Text,
    /// The names of its generators, in order.
    pub generators: Names,
    /// Its presentation.
    pub group: Presentation,
}

impl Model for PlanGroup {
    ghost use Rattle.mg_names.specs.Plan.{PlanGroup};

    ghost Value = { PlanGroup };

    ghost view = { λ g. record { name = g.name; generators = g.generators; group = g.group } };
}

/// What a question asks.
#[derive(Debug, Drop)]
pub enum Asked {
    /// Whether each goal lies in the subgroup.
    Plain(Ask),
}

/// A question.
#[derive(Debug, Drop)]
pub struct PlanQuestion {
    /// Its name.
    pub name: Text,
    /// The place, from 0, of the group that gives its words their names.
    pub group: u32,
    /// What it asks.
    pub asked: Asked,
}

impl Model for PlanQuestion {
    ghost use Rattle.mg_names.specs.Plan.{PlanQuestion};
    ghost use Rattle.mg_names.specs.Values.{asked_of};

    ghost Value = { PlanQuestion };

    ghost view = { λ q. record { name = q.name; group = q.group; asked = asked_of q.asked } };
}

/// A step of a session. Questions go by their places from 0.
#[derive(Clone, Copy, Debug, PartialEq, Eq)]
pub enum PlanStep {
    /// Adds units to the purse.
    Fund(u64),
    /// Moves units from the purse to a search.
    Grant {
        /// The place of the question.
        question: u32,
        /// The procedure.
        procedure: Procedure,
        /// The units.
        units: u64,
    },
    /// Runs the searches.
    Run {
        /// The most units that each may spend.
        bound: Option<u64>,
    },
    /// Takes back what a search holds.
    Cancel {
        /// The place of the question.
        question: u32,
        /// The procedure.
        procedure: Procedure,
    },
    /// Prints what is known of questions.
    Report {
        /// How many of them, from the first on.
        questions: u32,
    },
    /// Prints the facts.
    ReportFacts,
    /// Prints the log.
    ReportLog,
}

/// Groups in the order in which they are declared.
pub type PlanGroups = List<PlanGroup>;

/// Questions in the order in which they are asked.
pub type PlanQuestions = List<PlanQuestion>;

/// Steps in their order.
pub type PlanSteps = List<PlanStep>;

/// What a session is to run: what a script means, once its names are resolved.
#[derive(Debug, Drop)]
pub struct Plan {
    /// The groups.
    pub groups: PlanGroups,
    /// The questions.
    pub questions: PlanQuestions,
    /// The steps.
    pub steps: PlanSteps,
}

impl Model for Plan {
    ghost use Rattle.std.specs.Prelude.{map};
    ghost use Rattle.mg_names.specs.Plan.{Plan};
    ghost use Rattle.mg_names.specs.Values.{step_of};

    ghost Value = { Plan };

    ghost view = { λ p. record { groups = p.groups; questions = p.questions; steps = map step_of p.steps } };
}
