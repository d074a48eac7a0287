//! Laws of legal outputs. Each stands on a function without a body.
ghost use Rattle.std.specs.Prelude.{◌≡◌, ℕ, ◌+◌, ◌<◌, ◌≤◌, List, Option, Some, None, IfSome, Contains, slice_get};
ghost use Rattle.std.specs.List.{AllByRecursion};
ghost use Rattle.mg_core.specs.declared.entries.Entry.{Entry as EntryOf};
ghost use Rattle.mg_core.specs.Log.{facts_of, Settled, KeeperOf};
ghost use Rattle.mg_numbers.specs.Plain.{First};
ghost use Rattle.mg_ledger.specs.Accounts.{Balanced, HasBalance};
ghost use Rattle.mg_questions.specs.declared.question.Question.{Question};
ghost use Rattle.mg_names.specs.Plan.{PlanQuestion, run, report, report_facts, report_log};
ghost use Rattle.mg_present.specs.Ask.{Inquiry};
ghost use Rattle.mg_words.specs.declared.procedure.Procedure.{Procedure};
ghost use Rattle.mg_report.specs.Report.{QuestionBlock};
ghost use Rattle.mg_report.specs.Log.{facts_text};
ghost use Rattle.mg_certs.specs.Claim.{Fact, Verdict};
ghost use Rattle.mg_certs.specs.Validity.{IsValid, Accepted, IsTrueOf, key_of};
ghost use Rattle.mg_plain.specs.Plain.{AcceptedBy, Publishes, IsPlain};
ghost use Rattle.mg_search.specs.Search.{ask_of, procedure_of, Reads, TestsNumbered};
ghost use Rattle.mg_session.specs.State.{State, SearchState, accounts};
ghost use Rattle.mg_session.specs.Session.{IsThere};
ghost use Rattle.mg_session.specs.Output.{IsBlock, line_of};
ghost use Rattle.mg_session.specs.StateOk.{StateOk};
ghost use Rattle.mg_session.specs.Reading.{RefutesNoGoal};
ghost use Rattle.mg_session.specs.RunOk.{reach};
ghost use Rattle.mg_session.specs.Scripts.{IsOutput};
ghost use Rattle.mg_session.specs.Printed.{IsPrinted, IsLogOf, Agree};
ghost use Rattle.mg_command.specs.declared.command.PolicyName.{PolicyName};
ghost use Rattle.mg_top.specs.Command.{params_of};
ghost use Rattle.mg_top.specs.Answer.{Answers};
ghost use Rattle.mg_top.specs.Carried.{IsReport};
ghost use Rattle.mg_top.specs.Spent.{SpendsAll};

/// In every state behind a legal output each account balances, the funds are in the purse, held or
/// spent, the log is legal, and each search stands as its entries and the verdicts say.
pub fn states_are_in_order()
    ensures { (workers : ℕ) (policy : PolicyName) (script output : List ℕ)
        (legal : IsOutput script (params_of workers policy) output) →
        AllByRecursion (StateOk legal.scope.plan workers) legal.prints.states }
{}

/// Behind a legal output, an answer that is printed for a question is true: YES says that what the question asks is so,
/// over all words of its groups, and NO that it isn't.
pub fn answers_are_true()
    ensures { (workers : ℕ) (policy : PolicyName) (script output : List ℕ)
        (legal : IsOutput script (params_of workers policy) output) (step : ℕ)
        (state : State) (place : ℕ) (question : Question) (asked : PlanQuestion)
        (block : QuestionBlock) →
        slice_get legal.prints.states step ≡ Some state →
        slice_get legal.scope.questions place ≡ Some question →
        slice_get legal.scope.plan.questions place ≡ Some asked →
        IsBlock legal.scope.plan state place asked block →
        IfSome block.verdict (λ verdict. Answers question verdict.1) }
{}

/// Two answers to one Ask agree, at whatever steps of whatever two scripts they are printed.
pub fn no_two_verdicts_contradict()
    ensures { (workers : ℕ) (policy : PolicyName) (script output : List ℕ)
        (legal : IsOutput script (params_of workers policy) output) (step : ℕ)
        (state : State) (place : ℕ) (asked : PlanQuestion) (block : QuestionBlock) →
        (workers' : ℕ) (policy' : PolicyName) (script' output' : List ℕ)
        (legal' : IsOutput script' (params_of workers' policy') output') (step' : ℕ)
        (state' : State) (place' : ℕ) (asked' : PlanQuestion) (block' : QuestionBlock) →
        slice_get legal.prints.states step ≡ Some state →
        IsBlock legal.scope.plan state place asked block →
        slice_get legal'.prints.states step' ≡ Some state' →
        IsBlock legal'.scope.plan state' place' asked' block' →
        block.ask ≡ block'.ask →
        IfSome block.verdict (λ one. IfSome block'.verdict (λ other. Agree one.1 other.1)) }
{}

/// Behind a legal output, where a report is printed, the units of each search in it are spent, held or returned, and those that
/// were funded lie in the purse, are held or are spent.
pub fn units_balance_where_printed()
    ensures each { (workers : ℕ) (policy : PolicyName) (script output : List ℕ)
        (legal : IsOutput script (params_of workers policy) output) (step : ℕ)
        (state : State) (place : ℕ) (asked : PlanQuestion) (block : QuestionBlock) →
        slice_get legal.prints.states step ≡ Some state →
        IsBlock legal.scope.plan state place asked block →
        AllByRecursion (λ line. Balanced line.account) block.searches }
    ensures whole { (workers : ℕ) (policy : PolicyName) (script output : List ℕ)
        (legal : IsOutput script (params_of workers policy) output)
        (step : ℕ) (state : State) →
        slice_get legal.prints.states step ≡ Some state →
        HasBalance state.funded state.purse (accounts state.searches) }
{}

/// What is printed of a question, and so of one that is OPEN, names each of its searches with the units that were granted to
/// it and those that it spent, holds and returned.
pub fn open_questions_show_their_units()
    ensures { (workers : ℕ) (policy : PolicyName) (script output : List ℕ)
        (legal : IsOutput script (params_of workers policy) output) (state : State)
        (place : ℕ) (asked : PlanQuestion) (block : QuestionBlock)
        (procedure : Procedure) (before after : List SearchState) (search : SearchState) →
        IsBlock legal.scope.plan state place asked block →
        IsThere state place procedure before search after →
        Contains block.searches (line_of search) }
{}

/// Behind a legal output, after a run without a bound each search of an unsettled Ask holds no units, or is closed, idle or full.
pub fn runs_without_a_bound_spend_all()
    ensures { (workers : ℕ) (policy : PolicyName) (script output : List ℕ)
        (legal : IsOutput script (params_of workers policy) output) (step : ℕ)
        (old new : State) →
        slice_get legal.scope.plan.steps step ≡ Some (run None) →
        slice_get legal.prints.states step ≡ Some old →
        slice_get legal.prints.states (step + 1) ≡ Some new →
        AllByRecursion (SpendsAll new.log) new.searches }
{}

/// Behind a legal output, where a run has a search whose reach is at least the first accepted number, the Ask of
/// that search is settled after the run; and where the Ask isn't settled, a search through numbered objects has
/// spent its reach. Where a search that tests numbered objects keeps the verdict, it has published the object with the
/// least number.
pub fn the_first_number_settles()
    ensures settles { (workers : ℕ) (policy : PolicyName) (script output : List ℕ)
        (legal : IsOutput script (params_of workers policy) output)
        (step : ℕ) (bound : Option ℕ) (old new : State) (place : ℕ) (search : SearchState) (n : ℕ) →
        slice_get legal.scope.plan.steps step ≡ Some (run bound) →
        slice_get legal.prints.states step ≡ Some old →
        slice_get legal.prints.states (step + 1) ≡ Some new →
        slice_get old.searches place ≡ Some search →
        First (AcceptedBy (procedure_of search.search) (ask_of search.search)) n →
        n ≤ reach bound search → Settled key_of new.log (ask_of search.search) }
    ensures spends { (workers : ℕ) (policy : PolicyName) (script output : List ℕ)
        (legal : IsOutput script (params_of workers policy) output)
        (step : ℕ) (bound : Option ℕ) (old new : State) (place : ℕ) (search : SearchState) →
        slice_get legal.scope.plan.steps step ≡ Some (run bound) →
        slice_get legal.prints.states step ≡ Some old →
        slice_get legal.prints.states (step + 1) ≡ Some new →
        slice_get old.searches place ≡ Some search → IsPlain (procedure_of search.search) →
        (Settled key_of new.log (ask_of search.search) → ⊥) →
        (after : SearchState) × (slice_get new.searches place ≡ Some after) ×
        (after.account.spent ≡ reach bound search) }
    ensures least { (workers : ℕ) (policy : PolicyName) (script output : List ℕ)
        (legal : IsOutput script (params_of workers policy) output)
        (step : ℕ) (state : State) (place : ℕ) (search : SearchState) (entry : EntryOf Fact) →
        slice_get legal.prints.states step ≡ Some state →
        slice_get state.searches place ≡ Some search → TestsNumbered search.search →
        KeeperOf key_of state.log (ask_of search.search) entry → entry.search ≡ search.number →
        (n : ℕ) × First (AcceptedBy (procedure_of search.search) (ask_of search.search)) n ×
        Publishes (procedure_of search.search) (ask_of search.search) n entry.records }
{}

/// Behind a legal output, where a run leaves the Ask of a search that reads models unsettled, and the search has spent less
/// than its reach, no model of its group among the facts refutes a goal.
pub fn nothing_unread_is_left()
    ensures { (workers : ℕ) (policy : PolicyName) (script output : List ℕ)
        (legal : IsOutput script (params_of workers policy) output)
        (step : ℕ) (bound : Option ℕ) (old new : State) (place : ℕ) (search after : SearchState) →
        slice_get legal.scope.plan.steps step ≡ Some (run bound) →
        slice_get legal.prints.states step ≡ Some old →
        slice_get legal.prints.states (step + 1) ≡ Some new →
        slice_get old.searches place ≡ Some search → slice_get new.searches place ≡ Some after →
        Reads search.search →
        (Settled key_of new.log (ask_of search.search) → ⊥) →
        after.account.spent < reach bound search →
        AllByRecursion (RefutesNoGoal (ask_of search.search)) (facts_of new.log) }
{}

/// Behind a legal output the facts of each state are valid. `report facts` prints these, and `report log` shows of the
/// same state which entries they are the records of: those that it prints as kept, in order and as many of each as it
/// prints, and of no other.
pub fn printed_facts_are_those_kept()
    ensures valid { (workers : ℕ) (policy : PolicyName) (script output : List ℕ)
        (legal : IsOutput script (params_of workers policy) output)
        (step : ℕ) (state : State) →
        slice_get legal.prints.states step ≡ Some state →
        AllByRecursion IsValid (facts_of state.log) }
    ensures facts { (workers : ℕ) (policy : PolicyName) (script output : List ℕ)
        (legal : IsOutput script (params_of workers policy) output)
        (step : ℕ) (state : State) (text : List ℕ) →
        slice_get legal.scope.plan.steps step ≡ Some report_facts →
        slice_get legal.prints.states step ≡ Some state →
        slice_get legal.prints.texts step ≡ Some text → text ≡ facts_text (facts_of state.log) }
    ensures log { (workers : ℕ) (policy : PolicyName) (script output : List ℕ)
        (legal : IsOutput script (params_of workers policy) output) (step : ℕ)
        (state : State) (text : List ℕ) →
        slice_get legal.scope.plan.steps step ≡ Some report_log →
        slice_get legal.prints.states step ≡ Some state →
        slice_get legal.prints.texts step ≡ Some text → IsLogOf state text }
{}

/// Behind a legal output each verdict that is printed, in the block of a question or of a fact, carries a certificate that
/// is accepted for the Ask above it, and is true of it.
pub fn printed_verdicts_hold()
    ensures { (workers : ℕ) (policy : PolicyName) (script output : List ℕ)
        (legal : IsOutput script (params_of workers policy) output) (ask : Inquiry)
        (verdict : Verdict) →
        IsPrinted legal.scope.plan legal.prints.states ask verdict →
        Accepted ask verdict × IsTrueOf ask verdict }
{}

/// Two verdicts that are printed on one Ask agree, wherever they stand in whatever two outputs.
pub fn printed_verdicts_agree()
    ensures { (ask : Inquiry) (one other : Verdict) →
        (workers : ℕ) (policy : PolicyName) (script output : List ℕ)
        (legal : IsOutput script (params_of workers policy) output) →
        IsPrinted legal.scope.plan legal.prints.states ask one →
        (workers' : ℕ) (policy' : PolicyName) (script' output' : List ℕ)
        (legal' : IsOutput script' (params_of workers' policy') output') →
        IsPrinted legal'.scope.plan legal'.prints.states ask other → Agree one other }
{}

/// A report is the blocks of the questions that stand above it, in order. The Ask of a block is that of its question, and
/// the line behind the goals is the text of a verdict that is accepted for this Ask; where the question is open there is
/// no such line.
pub fn reports_carry_certificates()
    ensures { (workers : ℕ) (policy : PolicyName) (script output : List ℕ)
        (legal : IsOutput script (params_of workers policy) output)
        (step questions : ℕ) (state : State) (text : List ℕ) →
        slice_get legal.scope.plan.steps step ≡ Some (report questions) →
        slice_get legal.prints.states step ≡ Some state →
        slice_get legal.prints.texts step ≡ Some text → IsReport legal.scope state questions text }
{}
