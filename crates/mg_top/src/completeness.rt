//! The law that true questions are settled for some grant. It stands on a function without a body.
ghost use Rattle.std.specs.Prelude.{◌≡◌, ℕ, List, Some, slice_get};
ghost use Rattle.mg_core.specs.Log.{Settled};
ghost use Rattle.mg_numbers.specs.Plain.{First};
ghost use Rattle.mg_present.specs.Ask.{Inquiry};
ghost use Rattle.mg_derive.specs.Acceptance.{AcceptedAt};
ghost use Rattle.mg_questions.specs.declared.question.Question.{Question};
ghost use Rattle.mg_questions.specs.Meaning.{Meaning};
ghost use Rattle.mg_names.specs.Plan.{AskOf};
ghost use Rattle.mg_certs.specs.Validity.{key_of};
ghost use Rattle.mg_session.specs.State.{State};
ghost use Rattle.mg_session.specs.Scripts.{IsOutput};
ghost use Rattle.mg_command.specs.declared.command.PolicyName.{PolicyName};
ghost use Rattle.mg_top.specs.Command.{params_of};
ghost use Rattle.mg_top.specs.Settling.{IsRunReaching};

/// Behind a legal output, a question whose meaning holds has a first number with an accepted derivation of its Ask, and
/// the Ask has a verdict after each run in which the search by `derive` of the question has a reach of at least that
/// number. The number may be larger than 2^62, and then no reach comes up to it. Nothing is said of questions that
/// stay open.
pub fn true_questions_are_settled()
    ensures { (workers : ℕ) (policy : PolicyName) (script output : List ℕ)
        (legal : IsOutput script (params_of workers policy) output)
        (place : ℕ) (question : Question) (ask : Inquiry) →
        slice_get legal.scope.questions place ≡ Some question → AskOf legal.scope.plan place ask →
        Meaning question →
        (n : ℕ) × First (AcceptedAt ask) n ×
        ((step : ℕ) (new : State) →
        IsRunReaching legal.scope.plan legal.prints.states place n step new →
        Settled key_of new.log ask) }
{}
