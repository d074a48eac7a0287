//! Laws of sessions. Each stands on a function without a body, over any policy.
ghost use Rattle.std.specs.Prelude.{◌≡◌, ◌⊎◌, ℕ, ◌+◌, ◌<◌, ◌≤◌, true, false, List, Option, Some, IfSome, Contains, length, slice_get};
ghost use Rattle.std.specs.List.{AllByRecursion};
ghost use Rattle.mg_core.specs.declared.entries.Entry.{Entry as EntryOf};
ghost use Rattle.mg_core.specs.Log.{facts_of, Settled, KeeperOf};
ghost use Rattle.mg_ledger.specs.declared.ledger.TheConstants.{MOST_FUNDED};
ghost use Rattle.mg_ledger.specs.Accounts.{Balanced, HasBalance};
ghost use Rattle.mg_words.specs.declared.procedure.Procedure.{Procedure as ProcedureOf};
ghost use Rattle.mg_numbers.specs.Plain.{First, NoneAmong};
ghost use Rattle.mg_names.specs.Plan.{Plan, PlanQuestion, Step, fund, grant, cancel};
ghost use Rattle.mg_names.specs.Scope.{Scope};
ghost use Rattle.mg_workers.specs.Rows.{EachPair};
ghost use Rattle.mg_present.specs.Ask.{Inquiry};
ghost use Rattle.mg_certs.specs.Claim.{Fact, Verdict};
ghost use Rattle.mg_certs.specs.Validity.{IsValid, Accepted, IsTrueOf, key_of};
ghost use Rattle.mg_plain.specs.Plain.{AcceptedBy, Publishes, IsPlain};
ghost use Rattle.mg_search.specs.Search.{ask_of, procedure_of, is_open, Reads, HasPublished, TestsNumbered};
ghost use Rattle.mg_report.specs.Report.{QuestionBlock};
ghost use Rattle.mg_report.specs.Log.{EntryLine};
ghost use Rattle.mg_report.specs.Refusals.{fund_refused, grant_refused, cancel_refused};
ghost use Rattle.mg_session.specs.State.{State, SearchState, Params, accounts};
ghost use Rattle.mg_session.specs.Run.{RunStep};
ghost use Rattle.mg_session.specs.Reading.{RefutesNoGoal};
ghost use Rattle.mg_session.specs.Session.{Session, After, IsThere, IsAbsent};
ghost use Rattle.mg_session.specs.Output.{IsBlock, IsEntryLine, TextOf, line_of};
ghost use Rattle.mg_session.specs.Printed.{kept_in, CountKept, PrintsVerdict, Agree};
ghost use Rattle.mg_session.specs.StateOk.{StateOk};
ghost use Rattle.mg_session.specs.RunOk.{RunOk, reach};
ghost use Rattle.mg_session.specs.Scripts.{Resolves, IsRefused};

use mg_lex::Refused;
use mg_policy::Sizes;

/// Every list of bytes has a meaning or is refused. It has one meaning only, or is refused at one place for one cause, and
/// never both.
pub fn a_meaning_or_a_refusal()
    ensures some { (bytes : List ℕ) →
        ((scope : Scope) × Resolves bytes scope) ⊎ ((r : Refused) × IsRefused bytes r) }
    ensures meaning { (bytes : List ℕ) (one other : Scope) → Resolves bytes one →
        Resolves bytes other → one ≡ other }
    ensures refusal { (bytes : List ℕ) (r s : Refused) → IsRefused bytes r → IsRefused bytes s →
        r ≡ s }
    ensures never_both { (bytes : List ℕ) (scope : Scope) (r : Refused) → Resolves bytes scope →
        IsRefused bytes r → ⊥ }
{}

/// A session has a state before each step, and one behind the last.
pub fn sessions_have_a_state_more<P: Sizes>()
    ensures { (plan : Plan) (policy : P) (workers : ℕ) (states : List State) →
        Session plan (record { workers = workers; IsSize = P.is_size policy }) states →
        length states ≡ length plan.steps + 1 }
{}

/// In every state of a session accounts balance, funds are conserved, the log is legal, and each search stands
/// as its entries and the verdicts say.
pub fn states_are_in_order<P: Sizes>()
    ensures { (plan : Plan) (policy : P) (workers : ℕ) (states : List State) →
        Session plan (record { workers = workers; IsSize = P.is_size policy }) states →
        AllByRecursion (StateOk plan workers) states }
{}

/// A run leads from a state in order to one in order, makes the log longer, funds nothing and makes no search. Each
/// search spends within its reach; where its Ask is settled it holds nothing, and else it has spent its reach or
/// is closed, idle or full.
pub fn runs_are_in_order<P: Sizes>()
    ensures state { (plan : Plan) (policy : P) (workers : ℕ) (bound : Option ℕ) (old new : State) →
        StateOk plan workers old →
        RunStep plan (record { workers = workers; IsSize = P.is_size policy }) bound old new →
        StateOk plan workers new }
    ensures run { (plan : Plan) (policy : P) (workers : ℕ) (bound : Option ℕ) (old new : State) →
        StateOk plan workers old →
        RunStep plan (record { workers = workers; IsSize = P.is_size policy }) bound old new →
        RunOk bound old new }
{}

/// Where the reach of a search is at least the first accepted number, its Ask is settled after the run.
pub fn the_first_number_settles<P: Sizes>()
    ensures { (plan : Plan) (policy : P) (workers : ℕ) (bound : Option ℕ) (old new : State)
        (place : ℕ) (search : SearchState) (n : ℕ) →
        StateOk plan workers old →
        RunStep plan (record { workers = workers; IsSize = P.is_size policy }) bound old new →
        slice_get old.searches place ≡ Some search →
        First (AcceptedBy (procedure_of search.search) (ask_of search.search)) n →
        n ≤ reach bound search → Settled key_of new.log (ask_of search.search) }
{}

/// Where its Ask isn't settled after the run, a search through numbered objects has spent its reach.
pub fn open_searches_spend_their_reach<P: Sizes>()
    ensures { (plan : Plan) (policy : P) (workers : ℕ) (bound : Option ℕ) (old new : State)
        (place : ℕ) (search : SearchState) →
        StateOk plan workers old →
        RunStep plan (record { workers = workers; IsSize = P.is_size policy }) bound old new →
        slice_get old.searches place ≡ Some search → IsPlain (procedure_of search.search) →
        (Settled key_of new.log (ask_of search.search) → ⊥) →
        (after : SearchState) × (slice_get new.searches place ≡ Some after) ×
        (after.account.spent ≡ reach bound search) }
{}

/// Where the Ask of a search that reads models isn't settled after the run, and the search has spent less than its reach, no
/// model of its group among the facts refutes a goal.
pub fn nothing_unread_is_left<P: Sizes>()
    ensures { (plan : Plan) (policy : P) (workers : ℕ) (bound : Option ℕ) (old new : State)
        (place : ℕ) (search after : SearchState) →
        StateOk plan workers old →
        RunStep plan (record { workers = workers; IsSize = P.is_size policy }) bound old new →
        slice_get old.searches place ≡ Some search → slice_get new.searches place ≡ Some after →
        Reads search.search →
        (Settled key_of new.log (ask_of search.search) → ⊥) →
        after.account.spent < reach bound search →
        AllByRecursion (RefutesNoGoal (ask_of search.search)) (facts_of new.log) }
{}

/// Each state of a session leads to the next one by the step between them.
pub fn steps_lead_from_state_to_state<P: Sizes>()
    ensures { (plan : Plan) (policy : P) (workers : ℕ) (states : List State) (place : ℕ)
        (step : Step) (old new : State) →
        Session plan (record { workers = workers; IsSize = P.is_size policy }) states →
        slice_get plan.steps place ≡ Some step →
        slice_get states place ≡ Some old → slice_get states (place + 1) ≡ Some new →
        After plan (record { workers = workers; IsSize = P.is_size policy }) step old new }
{}

/// A search through numbered objects that is over has its Ask settled; one that goes on has accepted none of the
/// numbers that it has tested.
pub fn searches_are_over_with_a_verdict()
    ensures over { (plan : Plan) (workers : ℕ) (state : State) (place : ℕ) (search : SearchState) →
        StateOk plan workers state → slice_get state.searches place ≡ Some search →
        IsPlain (procedure_of search.search) →
        is_open search.search ≡ false → Settled key_of state.log (ask_of search.search) }
    ensures tested { (plan : Plan) (workers : ℕ) (state : State) (place : ℕ)
        (search : SearchState) →
        StateOk plan workers state → slice_get state.searches place ≡ Some search →
        is_open search.search ≡ true →
        NoneAmong (AcceptedBy (procedure_of search.search)
        (ask_of search.search)) 0 search.account.spent }
{}

/// Where a search keeps the verdict for its Ask, its entry has published what searches of its kind publish: the object with
/// the least accepted number; by completion the log of its rules and of moves that rewrite the goals, which is accepted, or
/// its rules as a complete system, and the least goal that they refute; by an enumeration of cosets the action of a whole
/// table and the least goal that it refutes; by Nielsen reduction the derivation that the signs of the goals are.
pub fn keepers_publish_as_their_kind_does()
    ensures { (plan : Plan) (workers : ℕ) (state : State) (place : ℕ) (search : SearchState)
        (entry : EntryOf Fact) →
        StateOk plan workers state → slice_get state.searches place ≡ Some search →
        KeeperOf key_of state.log (ask_of search.search) entry → entry.search ≡ search.number →
        HasPublished search.search entry.records }
{}

/// Where a search that tests numbered objects keeps the verdict for its Ask, its entry has published the object with the
/// least accepted number.
pub fn keepers_have_the_least_number()
    ensures { (plan : Plan) (workers : ℕ) (state : State) (place : ℕ) (search : SearchState)
        (entry : EntryOf Fact) →
        StateOk plan workers state → slice_get state.searches place ≡ Some search →
        TestsNumbered search.search →
        KeeperOf key_of state.log (ask_of search.search) entry → entry.search ≡ search.number →
        (n : ℕ) × First (AcceptedBy (procedure_of search.search) (ask_of search.search)) n ×
        Publishes (procedure_of search.search) (ask_of search.search) n entry.records }
{}

/// A step that is refused changes nothing, and prints one line: a fund by which more than all units would be funded, a
/// grant of more than the purse has, and a cancel where there is no such search.
pub fn refused_steps_change_nothing<P: Sizes>()
    ensures fund { (plan : Plan) (policy : P) (workers units : ℕ) (old new : State)
        (shown shown' text : List ℕ) → MOST_FUNDED < old.funded + units →
        After plan (record { workers = workers; IsSize = P.is_size policy }) (fund units) old new →
        TextOf plan (record { workers = workers; IsSize = P.is_size policy }) shown
        (fund units) old text shown' →
        (new ≡ old) × (text ≡ fund_refused old.funded) }
    ensures grant { (plan : Plan) (policy : P) (workers question units : ℕ)
        (procedure : ProcedureOf) (old new : State) (shown shown' text : List ℕ) →
        old.purse < units →
        After plan (record { workers = workers; IsSize = P.is_size policy })
        (grant question procedure units) old new →
        TextOf plan (record { workers = workers; IsSize = P.is_size policy }) shown
        (grant question procedure units) old text shown' →
        (new ≡ old) × (text ≡ grant_refused old.purse) }
    ensures cancel { (plan : Plan) (policy : P) (workers question : ℕ) (procedure : ProcedureOf)
        (old new : State) (shown shown' text : List ℕ) → IsAbsent old question procedure →
        After plan (record { workers = workers; IsSize = P.is_size policy })
        (cancel question procedure) old new →
        TextOf plan (record { workers = workers; IsSize = P.is_size policy }) shown
        (cancel question procedure) old text shown' →
        (new ≡ old) × (text ≡ cancel_refused) }
{}

/// Where a report is printed, the units of each search in it are spent, held or returned, and those that were funded
/// lie in the purse, are held or are spent.
pub fn units_balance_where_printed()
    ensures each { (plan : Plan) (workers : ℕ) (state : State) (place : ℕ)
        (question : PlanQuestion) (block : QuestionBlock) →
        StateOk plan workers state → IsBlock plan state place question block →
        AllByRecursion (λ line. Balanced line.account) block.searches }
    ensures whole { (plan : Plan) (workers : ℕ) (state : State) → StateOk plan workers state →
        HasBalance state.funded state.purse (accounts state.searches) }
{}

/// A question's block has a line for each of its searches, with what was granted to it, what it spent, holds and
/// returned, and how it stands: also where the question is open.
pub fn questions_show_their_searches()
    ensures { (plan : Plan) (state : State) (place : ℕ) (question : PlanQuestion)
        (block : QuestionBlock) (procedure : ProcedureOf) (before after : List SearchState)
        (search : SearchState) →
        IsBlock plan state place question block →
        IsThere state place procedure before search after →
        Contains block.searches (line_of search) }
{}

/// A verdict that is printed carries a certificate that is accepted for the Ask that is printed.
pub fn verdicts_carry_certificates()
    ensures { (plan : Plan) (workers : ℕ) (state : State) (place : ℕ) (question : PlanQuestion)
        (block : QuestionBlock) →
        StateOk plan workers state → IsBlock plan state place question block →
        IfSome block.verdict (λ verdict. Accepted block.ask verdict.1) }
{}

/// A verdict that is printed is true of the Ask that is printed.
pub fn answers_are_true()
    ensures { (plan : Plan) (workers : ℕ) (state : State) (place : ℕ) (question : PlanQuestion)
        (block : QuestionBlock) →
        StateOk plan workers state → IsBlock plan state place question block →
        IfSome block.verdict (λ verdict. IsTrueOf block.ask verdict.1) }
{}

/// The facts of a state in order are valid. They are in order the records of the entries that its log prints as kept, as
/// many of each as it prints, and of no other.
pub fn facts_are_those_kept()
    ensures valid { (plan : Plan) (workers : ℕ) (state : State) →
        StateOk plan workers state → AllByRecursion IsValid (facts_of state.log) }
    ensures kept { (state : State) (lines : List EntryLine) →
        EachPair (IsEntryLine state) state.log lines →
        facts_of state.log ≡ kept_in state.log lines }
    ensures counted { (state : State) (lines : List EntryLine) →
        EachPair (IsEntryLine state) state.log lines → CountKept state.log lines }
{}

/// A verdict that is printed, in the block of a question or of a fact, carries a certificate that is accepted for the Ask
/// above it, and is true of it.
pub fn printed_verdicts_hold()
    ensures { (plan : Plan) (workers : ℕ) (step : Step) (state : State) (ask : Inquiry)
        (verdict : Verdict) →
        StateOk plan workers state → PrintsVerdict plan step state ask verdict →
        Accepted ask verdict × IsTrueOf ask verdict }
{}

/// Two verdicts that are printed on one Ask agree, wherever they stand.
pub fn printed_verdicts_agree()
    ensures { (ask : Inquiry) (one other : Verdict) →
        (plan : Plan) (workers : ℕ) (step : Step) (state : State) →
        StateOk plan workers state → PrintsVerdict plan step state ask one →
        (plan' : Plan) (workers' : ℕ) (step' : Step) (state' : State) →
        StateOk plan' workers' state' → PrintsVerdict plan' step' state' ask other →
        Agree one other }
{}
