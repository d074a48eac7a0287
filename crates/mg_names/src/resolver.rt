//! What the statements of a script come to, one after another.

ghost use Rattle.std.specs.Prelude.{◌≡◌, ◌∷◌, ◌<◌, ◌≤◌, ◌+◌, ◌^◌, ℕ, None, OnOk, IfOk};
ghost use Rattle.mg_questions.specs.declared.question.Question.{Question as QuestionOf};
ghost use Rattle.mg_names.specs.Keeping.{Keeps, IsSound, Resolved};
ghost use Rattle.mg_names.specs.Least.{least_of};
ghost use Rattle.mg_names.specs.Meaning.{declaring, stepping, with_group, with_question};
ghost use Rattle.mg_names.specs.Name.{named_of};
ghost use Rattle.mg_names.specs.Named.{Statement as StatementOf, IsNamed};
ghost use Rattle.mg_names.specs.Objects.{object_of};
ghost use Rattle.mg_names.specs.Scope.{Scope as ScopeOf, lookup, nothing};
ghost use Rattle.mg_names.specs.Values.{step_of};

use crate::cursor::Name;
use crate::plan::{Plan, PlanGroup, PlanGroups, PlanQuestion, PlanQuestions, PlanStep, PlanSteps};
use crate::scope::{Names, Object};
use crate::searches::Searches;
use mg_lists::NoMemory;
use std::alloc::Global;

/// What the statements so far come to.
#[derive(Drop)]
pub(crate) struct Resolver {
    pub(crate) names: Names,
    pub(crate) plan: Plan,
    /// How many letters the Asks of all questions have together.
    pub(crate) letters: u64,
    pub(crate) searches: Searches,
}

impl Resolver {
    /// Before the first statement.
    pub(crate) fn new(alloc: Global) -> Resolver
        ensures { Keeps nothing result }
    {
        Resolver {
            names: Names::new(alloc),
            plan: Plan {
                groups: PlanGroups::new(alloc),
                questions: PlanQuestions::new(alloc),
                steps: PlanSteps::new(alloc),
            },
            letters: 0,
            searches: Searches::new(alloc),
        }
    }

    /// Declares a name that isn't there.
    pub(crate) fn declare(
        &mut self,
        alloc: Global,
        name: Name,
        object: Object,
    ) -> Result<(), NoMemory>
        requires { lookup self.old.names name.text.now ≡ None }
        ensures { (scope : ScopeOf) → Keeps scope self.old →
            OnOk result (Keeps (declaring scope (named_of name.entry)
            (object_of object)) self.new) }
    {
        self.names.declare(alloc, name.text, object)
    }

    /// Adds a step of the session.
    pub(crate) fn add_step(&mut self, step: PlanStep) -> Result<(), NoMemory>
        ensures { (scope : ScopeOf) → Keeps scope self.old →
            OnOk result (Keeps (stepping scope (step_of step)) self.new) }
    {
        self.plan.steps.push(step)
    }

    /// Adds a group.
    pub(crate) fn add_group(&mut self, group: PlanGroup) -> Result<(), NoMemory>
        ensures { (scope : ScopeOf) → Keeps scope self.old →
            OnOk result (Keeps (with_group scope group) self.new) }
    {
        self.plan.groups.push(group)
    }

    /// Adds a question whose Ask has so many letters.
    pub(crate) fn add_question(
        &mut self,
        question: PlanQuestion,
        letters: u64,
    ) -> Result<(), NoMemory>
        requires { self.old.letters + letters < 2 ^ 64 }
        ensures { (scope : ScopeOf) (asked : QuestionOf) → Keeps scope self.old →
            OnOk result (Keeps (with_question scope question asked letters) self.new) }
    {
        self.searches.add_question()?;
        self.plan.questions.push(question)?;
        self.letters += letters;
        Ok(())
    }
}
