//! Grants to searches, and what is taken back from them.

ghost use Rattle.std.specs.Prelude.{◌≡◌, ◌≢◌, ◌∷◌, ◌++◌, [], ℕ, None, Some, Option, List as ListOf, IfOk, OnOk, IfSome, IfNone, length, slice_get, ◌<◌};
ghost use Rattle.mg_present.specs.Ask.{Inquiry};
ghost use Rattle.mg_script.specs.declared.script.ScriptLine.{ScriptLine as LineOf};
ghost use Rattle.mg_script.specs.Statement.{procedure_keyword};
ghost use Rattle.mg_words.specs.declared.procedure.Procedure.{Procedure as ProcedureOf};
ghost use Rattle.mg_names.specs.Cause.{applies, not_a_question, not_applying_to, third_place, too_many_searches};
ghost use Rattle.mg_names.specs.Keeping.{Keeps, IsSound, Resolved};
ghost use Rattle.mg_names.specs.Least.{Gets, least_of};
ghost use Rattle.mg_names.specs.Meaning.{named_too, cancels, grants};
ghost use Rattle.mg_names.specs.Plan.{PlanQuestion as QuestionOf, plain};
ghost use Rattle.mg_names.specs.Within.{IsScope};
ghost use Rattle.mg_names.specs.Name.{named_of};
ghost use Rattle.mg_names.specs.Named.{Named, grant, cancel};
ghost use Rattle.mg_names.specs.Scope.{Scope as ScopeOf, a_question, lookup};
ghost use Rattle.mg_names.specs.Sign.{Sign, a_name, the_keyword, the_number};

use crate::cursor::{Cursor, Name};
use crate::least::{Fault, Found};
use crate::plan::{Asked, PlanStep};
use crate::resolver::Resolver;
use mg_lex::Cause;
use mg_lists::NoMemory;
use mg_present::Ask;
use mg_script::procedure_of;
use mg_terms::Lexeme;
use mg_words::Procedure;

/// The procedure that comes next.
fn read_procedure(cursor: &mut Cursor) -> Procedure
    requires { (p : ProcedureOf) × (rest : ListOf Sign) ×
        (cursor.old ≡ the_keyword (procedure_keyword p) ∷ rest) }
    ensures { (p : ProcedureOf) (rest : ListOf Sign) →
        cursor.old ≡ the_keyword (procedure_keyword p) ∷ rest → (result ≡ p) × (cursor.new ≡ rest) }
{
    let procedure = match cursor.lexeme() {
        Some(Lexeme::Keyword(keyword)) => procedure_of(keyword),
        _ => None,
    };
    cursor.skip();
    match procedure {
        Some(procedure) => procedure,
        None => unreachable!(),
    }
}

/// Whether the procedure can be used on the Ask.
fn is_applicable(procedure: Procedure, ask: &Ask) -> bool
    ensures { result ≡ applies procedure ask.now }
{
    match procedure {
        Procedure::Act | Procedure::Residue | Procedure::Cosets => ask.group().generators() > 0,
        Procedure::Rewrite => ask.subgroup().len() == 0,
        Procedure::Nielsen => ask.group().relators().len() == 0,
        Procedure::Derive | Procedure::Recall => true,
    }
}

impl Resolver {
    /// Whether the procedure can be used on the question at the place.
    fn applies(&self, question: u32, procedure: Procedure) -> bool
        requires { (q : QuestionOf) × (slice_get self.now.plan.questions question ≡ Some q) }
        ensures { (q : QuestionOf) (ask : Inquiry) →
            slice_get self.now.plan.questions question ≡ Some q → q.asked ≡ plain ask →
            result ≡ applies procedure ask }
    {
        let questions = self.plan.questions.as_slice();
        let question = &questions[question as usize];
        match &question.asked {
            Asked::Plain(ask) => is_applicable(procedure, ask),
        }
    }

    /// A procedure that can't be used on the question shows a cause.
    fn check_applies(&self, question: u32, procedure: Procedure, place: u32, found: &mut Found)
        requires { (q : QuestionOf) × (slice_get self.now.plan.questions question ≡ Some q) }
        ensures { (scope : ScopeOf) → Keeps scope self.now →
            Gets (not_applying_to scope procedure place (Some (a_question question))) found.old found.new }
    {
        if !self.applies(question, procedure) {
            found.offer(place, Cause::ProcedureDoesNotApply);
        }
    }

    /// A search that is one too many shows a cause.
    fn check_room(&self, question: u32, procedure: Procedure, place: u32, found: &mut Found)
        requires sound { IsSound self.now }
        requires there { question < length self.now.plan.questions }
        ensures { (scope : ScopeOf) → Keeps scope self.now →
            Gets (too_many_searches scope procedure place (Some (a_question question))) found.old found.new }
    {
        if !self.searches.has(question, procedure) && self.searches.is_full(procedure) {
            found.offer(place, Cause::TooMany);
        }
    }

    /// The question of a grant, and the causes that the grant shows.
    fn granted(
        &self,
        name: Name,
        procedure: Procedure,
        place: u32,
        found: &mut Found,
    ) -> Option<u32>
        requires { IsSound self.now }
        ensures causes { (scope : ScopeOf) → Keeps scope self.now →
            Gets (not_a_question (named_of name.entry) (lookup scope.names name.entry.text.now)
            ++ (too_many_searches scope procedure place (lookup scope.names name.entry.text.now) ++ not_applying_to scope procedure place (lookup scope.names name.entry.text.now))) found.old found.new }
        ensures some { IfSome result (λ q.
            lookup self.now.names name.entry.text.now ≡ Some (a_question q)) }
        ensures none { IfNone result ((q : ℕ) →
            lookup self.now.names name.entry.text.now ≢ Some (a_question q)) }
    {
        let question = self.names.question(name, found)?;
        self.check_room(question, procedure, place, found);
        self.check_applies(question, procedure, place, found);
        Some(question)
    }

    /// Grants a search units.
    fn add_grant(&mut self, question: u32, procedure: Procedure, units: u64) -> Result<(), NoMemory>
        requires { (scope : ScopeOf) × (lines : ℕ) × Keeps scope self.old × IsScope lines scope ×
            (question < length scope.plan.questions) × (place : ℕ) ×
            (too_many_searches scope procedure place (Some (a_question question)) ≡ []) }
        ensures { (scope : ScopeOf) → Keeps scope self.old →
            question < length scope.plan.questions →
            OnOk result (Keeps (grants scope procedure units (Some (a_question question))) self.new) }
    {
        self.name_search(question, procedure);
        self.add_step(PlanStep::Grant {
            question,
            procedure,
            units,
        })
    }

    /// Names a pair of a question and a procedure, if it isn't named yet.
    fn name_search(&mut self, question: u32, procedure: Procedure)
        requires { (scope : ScopeOf) × (lines : ℕ) × Keeps scope self.old × IsScope lines scope ×
            (question < length scope.plan.questions) × (place : ℕ) ×
            (too_many_searches scope procedure place (Some (a_question question)) ≡ []) }
        ensures { (scope : ScopeOf) → Keeps scope self.old →
            question < length scope.plan.questions →
            Keeps (record scope { searches = named_too scope.searches question procedure }) self.new }
    {
        if !self.searches.has(question, procedure) {
            self.searches.add(question, procedure);
        }
    }

    /// `grant QUESTION PROCEDURE UNITS`
    pub(crate) fn grant(
        &mut self,
        cursor: &mut Cursor,
        place: u32,
    ) -> Result<Option<Fault>, NoMemory>
        requires sound { IsSound self.old }
        requires ahead { (n : Named) × (p : ProcedureOf) × (units : ℕ) ×
            (cursor.old ≡ a_name n ∷ the_keyword (procedure_keyword p) ∷ the_number units ∷ []) }
        ensures { (scope : ScopeOf) (line : LineOf) (n : Named) (p : ProcedureOf) (units : ℕ) →
            Keeps scope self.old →
            cursor.old ≡ a_name n ∷ the_keyword (procedure_keyword p) ∷ the_number units ∷ [] →
            place ≡ third_place line.tokens →
            IfOk result (λ fault. Resolved scope line (grant n p units) (least_of fault) self.new) }
    {
        let name = cursor.name();
        let procedure = read_procedure(cursor);
        let units = cursor.number();
        let mut found = Found::new();
        let question = self.granted(name, procedure, place, &mut found);
        if let Some(fault) = found.least() {
            return Ok(Some(fault));
        }
        if let Some(question) = question {
            self.add_grant(question, procedure, units)?;
        }
        Ok(None)
    }

    /// The question of a cancel, and the causes that the cancel shows.
    fn cancelled(
        &self,
        name: Name,
        procedure: Procedure,
        place: u32,
        found: &mut Found,
    ) -> Option<u32>
        requires { IsSound self.now }
        ensures causes { (scope : ScopeOf) → Keeps scope self.now →
            Gets (not_a_question (named_of name.entry) (lookup scope.names name.entry.text.now)
            ++ not_applying_to scope procedure place (lookup scope.names name.entry.text.now)) found.old found.new }
        ensures some { IfSome result (λ q.
            lookup self.now.names name.entry.text.now ≡ Some (a_question q)) }
        ensures none { IfNone result ((q : ℕ) →
            lookup self.now.names name.entry.text.now ≢ Some (a_question q)) }
    {
        let question = self.names.question(name, found)?;
        self.check_applies(question, procedure, place, found);
        Some(question)
    }

    /// `cancel QUESTION PROCEDURE`
    pub(crate) fn cancel(
        &mut self,
        cursor: &mut Cursor,
        place: u32,
    ) -> Result<Option<Fault>, NoMemory>
        requires sound { IsSound self.old }
        requires ahead { (n : Named) × (p : ProcedureOf) ×
            (cursor.old ≡ a_name n ∷ the_keyword (procedure_keyword p) ∷ []) }
        ensures { (scope : ScopeOf) (line : LineOf) (n : Named) (p : ProcedureOf) →
            Keeps scope self.old →
            cursor.old ≡ a_name n ∷ the_keyword (procedure_keyword p) ∷ [] →
            place ≡ third_place line.tokens →
            IfOk result (λ fault. Resolved scope line (cancel n p) (least_of fault) self.new) }
    {
        let name = cursor.name();
        let procedure = read_procedure(cursor);
        let mut found = Found::new();
        let question = self.cancelled(name, procedure, place, &mut found);
        if let Some(fault) = found.least() {
            return Ok(Some(fault));
        }
        if let Some(question) = question {
            self.add_step(PlanStep::Cancel {
                question,
                procedure,
            })?;
        }
        Ok(None)
    }
}
