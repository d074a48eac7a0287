//! Claims: what code can put on record about groups.
ghost use Rattle.std.specs.Prelude.{◌≡◌, IfOk, IfErr};
ghost use Rattle.mg_certs.specs.Claim.{settled, model_of};
ghost use Rattle.mg_certs.specs.Validity.{Accepted, AcceptedModel, IsValid, recording};
ghost use Rattle.mg_certs.specs.Values.{model_value, verdict_of, fact_seen, claimed_by, refuted_by, modelled_by, IsRefused, IsNoRefused, IsModelRefused};
ghost use Rattle.mg_certs.specs.Records.{settles_or_models};
ghost use Rattle.mg_present.proofs.Exact.{ask_exact, group_exact};

use crate::verdict::{self, No, Verdict, Yes};
use mg_core::{NoMemory, Record};
use mg_present::{Ask, Presentation};
use std::alloc::Global;
use std::marker::Model;
use thiserror::Error;

/// A record whose certificate is accepted: an Ask settled by a verdict, or a model as one of a group. A claim is
/// seen as the fact that it puts on record.
#[derive(Debug, Drop)]
pub struct Claim {
    body: Body,
}

// What is claimed.
#[derive(Debug, Drop)]
enum Body {
    Settled(Ask, Verdict),
    ModelOf(Presentation, verdict::Model),
}

impl Model for Claim {
    ghost use Rattle.mg_certs.specs.Claim.{Fact};
    ghost use Rattle.mg_certs.specs.Validity.{IsValid};
    ghost use Rattle.mg_certs.specs.Values.{fact_of};

    ghost Value = { Fact };

    ghost view = { λ claim. fact_of claim.body };

    ghost invariant = { λ claim. IsValid (fact_of claim.body) };
}

/// What a claim lends.
#[derive(Clone, Copy, Debug)]
pub enum ClaimView<'a> {
    /// The Ask is settled by the verdict.
    Settled(&'a Ask, &'a Verdict),
    /// The model is one of the group.
    ModelOf(&'a Presentation, &'a verdict::Model),
}

/// Why YES isn't claimed.
#[derive(Debug, Drop, Error)]
pub enum YesRefused {
    /// The certificate isn't accepted for the Ask. Both come back.
    #[error("the certificate is not accepted")]
    NotAccepted(Ask, Yes),
    /// Want of memory.
    #[error("no memory")]
    NoMemory,
}

/// Why NO isn't claimed.
#[derive(Debug, Drop, Error)]
pub enum NoRefused {
    /// The certificate isn't accepted for the Ask. Both come back.
    #[error("the certificate is not accepted")]
    NotAccepted(Ask, No),
    /// Want of memory, which only a complete system leads to.
    #[error("no memory")]
    NoMemory,
}

/// Why a model isn't claimed.
#[derive(Debug, Drop, Error)]
pub enum ModelRefused {
    /// The model isn't one of the group. Both come back.
    #[error("the model is not one of the group")]
    NotAccepted(Presentation, verdict::Model),
    /// Want of memory, which only a complete system leads to.
    #[error("no memory")]
    NoMemory,
}

impl From<NoMemory> for YesRefused {
    ghost use Rattle.mg_certs.specs.declared.claim.YesRefused.TheVariants.{NoMemory};

    ghost from_gives = { λ _ refused. refused ≡ NoMemory };

    fn from(_: NoMemory) -> YesRefused {
        YesRefused::NoMemory
    }
}

/// Claims that each goal of the Ask lies in its subgroup. NotAccepted comes exactly where the certificate isn't
/// accepted for the Ask.
pub fn claim_yes(alloc: Global, ask: Ask, certificate: Yes) -> Result<Claim, YesRefused>
    ensures claimed { IfOk result (λ claim. claim ≡ claimed_by ask certificate) }
    ensures valid { IfOk result (λ claim. IsValid claim) }
    ensures refused { IfErr result (IsRefused ask certificate) }
{
    if !certificate.is_accepted(alloc, &ask)? {
        return Err(YesRefused::NotAccepted(ask, certificate));
    }
    Ok(Claim {
        body: Body::Settled(ask, Verdict::Yes(certificate)),
    })
}

/// Claims that a goal of the Ask doesn't lie in its subgroup. NotAccepted comes exactly where the certificate
/// isn't accepted for the Ask.
pub fn claim_no(alloc: Global, ask: Ask, certificate: No) -> Result<Claim, NoRefused>
    ensures claimed { IfOk result (λ claim. claim ≡ refuted_by ask certificate) }
    ensures valid { IfOk result (λ claim. IsValid claim) }
    ensures refused { IfErr result (IsNoRefused ask certificate) }
{
    match certificate.is_accepted(alloc, &ask) {
        Ok(true) => Ok(Claim {
            body: Body::Settled(ask, Verdict::No(certificate)),
        }),
        Ok(false) => Err(NoRefused::NotAccepted(ask, certificate)),
        Err(_) => Err(NoRefused::NoMemory),
    }
}

/// Claims that the model is one of the group. NotAccepted comes exactly where it isn't.
pub fn claim_model(
    alloc: Global,
    group: Presentation,
    model: verdict::Model,
) -> Result<Claim, ModelRefused>
    ensures claimed { IfOk result (λ claim. claim ≡ modelled_by group model) }
    ensures valid { IfOk result (λ claim. IsValid claim) }
    ensures refused { IfErr result (IsModelRefused group model) }
{
    match model.is_accepted(alloc, &group) {
        Ok(true) => Ok(Claim {
            body: Body::ModelOf(group, model),
        }),
        Ok(false) => Err(ModelRefused::NotAccepted(group, model)),
        Err(_) => Err(ModelRefused::NoMemory),
    }
}

impl Claim {
    /// Claims an answer whose certificate is accepted.
    pub fn of_verdict(ask: Ask, verdict: Verdict) -> Claim
        requires accepted { Accepted ask (verdict_of verdict) }
        ensures claimed { result ≡ settled ask (verdict_of verdict) }
        ensures valid { IsValid result }
    {
        Claim {
            body: Body::Settled(ask, verdict),
        }
    }

    /// Claims a model of a group.
    pub fn of_model(group: Presentation, model: verdict::Model) -> Claim
        requires accepted { AcceptedModel group (model_value model) }
        ensures claimed { result ≡ model_of group (model_value model) }
        ensures valid { IsValid result }
    {
        Claim {
            body: Body::ModelOf(group, model),
        }
    }

    /// Lends what is claimed.
    pub fn view(&self) -> ClaimView<'_>
        ensures fact { fact_seen result ≡ self.now }
        ensures valid { IsValid self.now }
    {
        match &self.body {
            Body::Settled(ask, verdict) => ClaimView::Settled(ask, verdict),
            Body::ModelOf(group, model) => ClaimView::ModelOf(group, model),
        }
    }
}

impl Record for Claim {
    type Key = Ask;

    type Group = Presentation;

    ghost recording = { recording };

    fn settles(&self) -> Option<&Ask> {
        match &self.body {
            Body::Settled(ask, _) => Some(ask),
            Body::ModelOf(..) => None,
        }
    }

    fn model_of(&self) -> Option<&Presentation> {
        match &self.body {
            Body::Settled(..) => None,
            Body::ModelOf(group, _) => Some(group),
        }
    }

    fn copy(&self, alloc: Global) -> Result<Claim, NoMemory> {
        match &self.body {
            Body::Settled(ask, verdict) => Ok(Claim {
                body: Body::Settled(ask.copy(alloc)?, verdict.copy(alloc)?),
            }),
            Body::ModelOf(group, model) => Ok(Claim {
                body: Body::ModelOf(group.copy(alloc)?, model.copy(alloc)?),
            }),
        }
    }

    ghost lawful = { record {
      exact_keys = ask_exact;
      exact_groups = group_exact;
      one_of_both = settles_or_models;
    } };
}
