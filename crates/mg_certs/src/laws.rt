//! What an accepted certificate shows. Each law stands on a function without a body.
ghost use Rattle.mg_present.specs.Ask.{Inquiry};
ghost use Rattle.mg_certs.specs.Claim.{Verdict, Affirmation, Model as ModelOf, affirmed, refuted};
ghost use Rattle.mg_certs.specs.Validity.{Accepted, AcceptedModel, IsTrueOf};
ghost use Rattle.std.specs.Prelude.{ℕ};

/// A verdict whose certificate is accepted is true: under YES each goal lies in the subgroup, and under NO
/// not each goal does.
pub fn accepted_verdicts_are_true()
    ensures { (ask : Inquiry) (verdict : Verdict) → Accepted ask verdict → IsTrueOf ask verdict }
{}

/// No Ask has accepted certificates for YES and for NO.
pub fn no_two_verdicts_contradict()
    ensures { (ask : Inquiry) (certificate : Affirmation) (goal : ℕ) (model : ModelOf) →
        Accepted ask (affirmed certificate) → Accepted ask (refuted goal model) → ⊥ }
{}

/// The model of an accepted NO is an accepted model of the group of its Ask.
pub fn models_of_a_no_are_models()
    ensures { (ask : Inquiry) (goal : ℕ) (model : ModelOf) → Accepted ask (refuted goal model) →
        AcceptedModel ask.group model }
{}
