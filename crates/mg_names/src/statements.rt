//! The statements, each by its first keyword.

ghost use Rattle.std.specs.Prelude.{◌≡◌, ◌∷◌, [], ℕ, None, Option, Some, List as ListOf, IfOk, length};
ghost use Rattle.mg_lex.specs.declared.keyword.Keyword.{Keyword as KeywordOf};
ghost use Rattle.mg_script.specs.declared.form.Printed.{Printed as PrintedOf};
ghost use Rattle.mg_script.specs.declared.script.ScriptLine.{ScriptLine as LineOf};
ghost use Rattle.mg_names.specs.Cause.{last_place as place_of_last, third_place as place_of_third};
ghost use Rattle.mg_names.specs.Keeping.{Keeps, IsSound, Resolved};
ghost use Rattle.mg_names.specs.Least.{least_of};
ghost use Rattle.mg_names.specs.Printing.{printed_step};
ghost use Rattle.mg_names.specs.Named.{Statement as StatementOf, IsNamed, fund, run, report};
ghost use Rattle.mg_names.specs.Scope.{Scope as ScopeOf};
ghost use Rattle.mg_names.specs.Sign.{Sign, the_keyword, the_number, bound_signs, printed_signs};
ghost use Rattle.mg_names.specs.Values.{step_of};
ghost use Rattle.mg_names.specs.Within.{IsReadLine};

use crate::cursor::Cursor;
use crate::least::Fault;
use crate::plan::PlanStep;
use crate::resolver::Resolver;
use mg_lex::{Keyword, Token};
use mg_lists::NoMemory;
use mg_script::ScriptLine;
use mg_terms::Lexeme;
use std::alloc::Global;

impl Resolver {
    /// Adds what a line's statement brings, or answers the first cause that it shows.
    pub(crate) fn statement(
        &mut self,
        alloc: Global,
        line: &ScriptLine,
    ) -> Result<Option<Fault>, NoMemory>
        requires sound { IsSound self.old }
        requires line { IsReadLine line.now }
        ensures { (scope : ScopeOf) (s : StatementOf) → Keeps scope self.old → IsNamed line.now s →
            IfOk result (λ fault. Resolved scope line.now s (least_of fault) self.new) }
    {
        let mut cursor = Cursor::of(line);
        let tokens = line.tokens.as_slice();
        match first_keyword(&mut cursor) {
            Keyword::Group => self.group(alloc, &mut cursor),
            Keyword::Word => self.word(alloc, &mut cursor),
            Keyword::Subgroup => self.subgroup(alloc, &mut cursor),
            Keyword::Map => self.mapping(alloc, &mut cursor, last_place(tokens)),
            Keyword::Ask => self.ask(alloc, &mut cursor),
            Keyword::Fund => self.fund(&mut cursor),
            Keyword::Grant => self.grant(&mut cursor, third_place(tokens)),
            Keyword::Run => self.run(&mut cursor),
            Keyword::Cancel => self.cancel(&mut cursor, third_place(tokens)),
            Keyword::Report => self.report(&mut cursor),
            _ => unreachable!(),
        }
    }

    /// `fund UNITS`
    fn fund(&mut self, cursor: &mut Cursor) -> Result<Option<Fault>, NoMemory>
        ensures { (scope : ScopeOf) (line : LineOf) (units : ℕ) → Keeps scope self.old →
            cursor.old ≡ the_number units ∷ [] →
            IfOk result (λ fault. Resolved scope line (fund units) (least_of fault) self.new) }
    {
        let units = cursor.number();
        self.add_step(PlanStep::Fund(units))?;
        Ok(None)
    }

    /// `run`, or `run BOUND`
    fn run(&mut self, cursor: &mut Cursor) -> Result<Option<Fault>, NoMemory>
        ensures { (scope : ScopeOf) (line : LineOf) (bound : Option ℕ) → Keeps scope self.old →
            cursor.old ≡ bound_signs bound →
            IfOk result (λ fault. Resolved scope line (run bound) (least_of fault) self.new) }
    {
        let bound = read_bound(cursor);
        self.add_step(PlanStep::Run { bound })?;
        Ok(None)
    }

    /// `report`, `report facts` or `report log`
    fn report(&mut self, cursor: &mut Cursor) -> Result<Option<Fault>, NoMemory>
        requires { IsSound self.old }
        ensures { (scope : ScopeOf) (line : LineOf) (what : PrintedOf) → Keeps scope self.old →
            cursor.old ≡ printed_signs what →
            IfOk result (λ fault. Resolved scope line (report what) (least_of fault) self.new) }
    {
        let step = self.report_step(cursor);
        self.add_step(step)?;
        Ok(None)
    }

    /// What a report prints, of the questions so far.
    fn report_step(&self, cursor: &Cursor) -> PlanStep
        requires { IsSound self.now }
        ensures { (what : PrintedOf) → cursor.now ≡ printed_signs what →
            step_of result ≡ printed_step (length self.now.plan.questions) what }
    {
        if cursor.is_keyword(Keyword::Facts) {
            return PlanStep::ReportFacts;
        }
        if cursor.is_keyword(Keyword::Log) {
            return PlanStep::ReportLog;
        }
        let questions = self.plan.questions.as_slice().len() as u32;
        PlanStep::Report { questions }
    }
}

/// The keyword that comes first.
fn first_keyword(cursor: &mut Cursor) -> Keyword
    requires { (k : KeywordOf) × (rest : ListOf Sign) × (cursor.old ≡ the_keyword k ∷ rest) }
    ensures { (k : KeywordOf) (rest : ListOf Sign) → cursor.old ≡ the_keyword k ∷ rest →
        (result ≡ k) × (cursor.new ≡ rest) }
{
    match cursor.lexeme() {
        Some(Lexeme::Keyword(keyword)) => {
            cursor.skip();
            keyword
        }
        _ => unreachable!(),
    }
}

/// The number that is there, if one is.
fn read_bound(cursor: &mut Cursor) -> Option<u64>
    ensures { (bound : Option ℕ) → cursor.old ≡ bound_signs bound → result ≡ bound }
{
    match cursor.lexeme() {
        Some(_) => Some(cursor.number()),
        None => None,
    }
}

/// Where the last token begins.
fn last_place(tokens: &[Token]) -> u32
    ensures { result ≡ place_of_last tokens.now }
{
    match tokens {
        [.., token] => token.start,
        [] => 0,
    }
}

/// Where the third token begins.
fn third_place(tokens: &[Token]) -> u32
    ensures { result ≡ place_of_third tokens.now }
{
    match tokens {
        [_, _, token, ..] => token.start,
        _ => 0,
    }
}
