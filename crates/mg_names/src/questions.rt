//! Statements that ask a question.

ghost use Rattle.std.specs.Prelude.{◌≡◌, ◌+◌, ◌≤◌, None, Some, IfOk, OnOk};
ghost use Rattle.mg_present.specs.Presentation.{IsPresented};
ghost use Rattle.mg_questions.specs.Asking.{IsFit};
ghost use Rattle.mg_questions.specs.Goals.{group_of};
ghost use Rattle.mg_script.specs.declared.script.ScriptLine.{ScriptLine as LineOf};
ghost use Rattle.mg_names.specs.Asked.{IsQuestionAhead, IsSameAsking};
ghost use Rattle.mg_names.specs.Cause.{too_large};
ghost use Rattle.mg_names.specs.Keeping.{Keeps, IsSound, Resolved};
ghost use Rattle.mg_names.specs.Least.{Gets, least_of};
ghost use Rattle.mg_names.specs.Meaning.{Asking as MeantAsking, declares_question};
ghost use Rattle.mg_names.specs.Name.{named_of};
ghost use Rattle.mg_names.specs.Named.{Named, Question as QuestionTree, ask};
ghost use Rattle.mg_names.specs.Scope.{Scope as ScopeOf, lookup};
ghost use Rattle.mg_names.specs.Sign.{question_signs, statement_signs, tail_of};
ghost use Rattle.mg_names.specs.Sized.{IsToAdd, IsAskRead};
ghost use Rattle.mg_names.specs.Within.{IsSized};
ghost use Rattle.mg_names.specs.declared.limits.TheConstants.{ASK_LETTER_LIMIT};

use crate::asking::{Asking, read_question};
use crate::cursor::{Cursor, Name};
use crate::least::{Fault, Found};
use crate::plan::{Asked, PlanQuestion};
use crate::resolver::Resolver;
use crate::scope::Object;
use crate::sizing::{CountedAsk, Sizing, sized_ask};
use crate::texts::text_of;
use mg_lists::NoMemory;
use std::alloc::Global;

/// A question that may be added, by its Ask and the place of its group.
#[derive(Drop)]
pub(crate) struct Addition {
    pub(crate) group: u32,
    pub(crate) counted: CountedAsk,
}

impl Resolver {
    /// `ask NAME : QUESTION`
    pub(crate) fn ask(
        &mut self,
        alloc: Global,
        cursor: &mut Cursor,
    ) -> Result<Option<Fault>, NoMemory>
        requires sound { IsSound self.old }
        requires ahead { (n : Named) × (q : QuestionTree) ×
            (cursor.old ≡ tail_of (statement_signs (ask n q))) × IsSized (ask n q) }
        ensures { (scope : ScopeOf) (line : LineOf) (n : Named) (q : QuestionTree) →
            Keeps scope self.old → cursor.old ≡ tail_of (statement_signs (ask n q)) →
            IfOk result (λ fault. Resolved scope line (ask n q) (least_of fault) self.new) }
    {
        let name = cursor.name();
        cursor.skip();
        let mut found = Found::new();
        self.names.check_new(name, &mut found);
        let addition = self.addition(alloc, cursor, name, &mut found)?;
        if let Some(fault) = found.least() {
            return Ok(Some(fault));
        }
        if let Some(addition) = addition {
            self.add(alloc, name, addition)?;
        }
        Ok(None)
    }

    /// Reads the question that comes next, and finds the causes that it shows. There is nothing to add where
    /// it shows one.
    fn addition(
        &self,
        alloc: Global,
        cursor: &mut Cursor,
        name: Name,
        found: &mut Found,
    ) -> Result<Option<Addition>, NoMemory>
        requires sound { IsSound self.now }
        requires ahead { IsQuestionAhead cursor.old }
        ensures { (scope : ScopeOf) (q : QuestionTree) → Keeps scope self.now →
            cursor.old ≡ question_signs q →
            IfOk result (λ addition. IsAskRead scope (named_of name.entry) q found.old found.new addition) }
    {
        let known = self.known();
        let mut in_words = Found::new();
        let asking = read_question(alloc, cursor, &known, &mut in_words)?;
        if let Some(fault) = in_words.least() {
            found.offer(fault.place, fault.cause);
            return Ok(None);
        }
        match asking {
            Some(asking) => self.sized(alloc, &asking, name, found),
            None => Ok(None),
        }
    }

    /// A question with its Ask, where that isn't too large.
    fn sized(
        &self,
        alloc: Global,
        asking: &Asking,
        name: Name,
        found: &mut Found,
    ) -> Result<Option<Addition>, NoMemory>
        requires sound { IsSound self.now }
        requires fit { IsFit asking.now.question }
        requires presented { IsPresented (group_of asking.now.question) }
        ensures { (scope : ScopeOf) (a : MeantAsking) → Keeps scope self.now →
            IsSameAsking a asking.now →
            IfOk result (λ addition. Gets (too_large scope (named_of name.entry)
            (Some a)) found.old found.new × (found.new ≡ None → IsToAdd scope (Some a) addition)) }
    {
        match sized_ask(alloc, &asking.question, self.letters)? {
            Sizing::Fits(counted) => Ok(Some(Addition {
                group: asking.group,
                counted,
            })),
            Sizing::TooLarge(cause) => {
                found.offer(name.place, cause);
                Ok(None)
            }
        }
    }

    /// Adds a question, and its name.
    fn add(&mut self, alloc: Global, name: Name, addition: Addition) -> Result<(), NoMemory>
        requires sound { IsSound self.old }
        requires new { lookup self.old.names name.text.now ≡ None }
        requires few { self.old.letters + addition.counted.letters ≤ ASK_LETTER_LIMIT }
        ensures { (scope : ScopeOf) (a : MeantAsking) → Keeps scope self.old →
            IsToAdd scope (Some a) (Some addition) →
            OnOk result (Keeps (declares_question scope (named_of name.entry) (Some a)) self.new) }
    {
        let place = self.plan.questions.as_slice().len() as u32;
        let letters = addition.counted.letters;
        let question = PlanQuestion {
            name: text_of(alloc, name.text)?,
            group: addition.group,
            asked: Asked::Plain(addition.counted.ask),
        };
        self.add_question(question, letters)?;
        self.declare(alloc, name, Object::Question(place))
    }
}
