//! The searches through the objects of each procedure.
ghost use Rattle.std.specs.Prelude.{◌≡◌, ◌+◌, ◌≤◌, ℕ, true, IfOk};
ghost use Rattle.mg_words.specs.declared.procedure.Procedure.{Procedure as ProcedureOf};
ghost use Rattle.mg_numbers.specs.declared.blocks.TheConstants.{MOST_NUMBER};
ghost use Rattle.mg_numbers.specs.declared.advance.Advance.TheVariants.{Found};
ghost use Rattle.mg_present.specs.Applies.{Applies};
ghost use Rattle.mg_plain.specs.Plain.{Plain, IsPlain, IsSearched, PublishesHere};
ghost use Rattle.mg_plain.specs.Objects.{seen, fresh, HasFound, Advances};

use crate::records::{refuted, settled};
use mg_certs::{Claim, Model};
use mg_core::{NoMemory, Records};
use mg_numbers::Advance;
use mg_present::Ask;
use mg_words::Procedure;
use std::alloc::Global;

/// A search through the objects of a procedure in the order of their numbers.
#[derive(Debug, Drop)]
pub(crate) enum Objects {
    /// Through derivations.
    Texts(mg_derive::Enumeration),
    /// Through finite actions.
    Actions(mg_action::Enumeration),
    /// Through maps to residues.
    Maps(mg_cyclic::Enumeration),
}

impl Objects {
    /// A search that has tested nothing yet.
    pub(crate) fn start(alloc: Global, procedure: Procedure, ask: &Ask) -> Result<Objects, NoMemory>
        requires is_plain { IsPlain procedure }
        requires applies { Applies procedure ask.now }
        ensures { IfOk result (λ objects. seen objects ≡ fresh procedure ask.now) }
    {
        let ask = ask.copy(alloc)?;
        match procedure {
            Procedure::Derive => Ok(Objects::Texts(mg_derive::Enumeration::start(alloc, ask)?)),
            Procedure::Act => Ok(Objects::Actions(mg_action::Enumeration::start(alloc, ask)?)),
            Procedure::Residue => Ok(Objects::Maps(mg_cyclic::Enumeration::start(alloc, ask)?)),
            _ => unreachable!(),
        }
    }

    /// The procedure.
    pub(crate) fn procedure(&self) -> Procedure
        ensures { result ≡ (seen self.now).procedure }
    {
        match self {
            Objects::Texts(_) => Procedure::Derive,
            Objects::Actions(_) => Procedure::Act,
            Objects::Maps(_) => Procedure::Residue,
        }
    }

    /// The Ask.
    pub(crate) fn ask(&self) -> &Ask
        ensures { result.now ≡ (seen self.now).ask }
    {
        match self {
            Objects::Texts(texts) => texts.ask(),
            Objects::Actions(actions) => actions.ask(),
            Objects::Maps(maps) => maps.ask(),
        }
    }

    /// The number of the last object tested.
    pub(crate) fn cursor(&self) -> u64
        ensures value { result ≡ (seen self.now).cursor }
        ensures most { result ≤ MOST_NUMBER }
        ensures searched { IsSearched (seen self.now) }
    {
        match self {
            Objects::Texts(texts) => texts.cursor(),
            Objects::Actions(actions) => actions.cursor(),
            Objects::Maps(maps) => maps.cursor(),
        }
    }

    /// Tests the next objects, one for each unit, up to the first that is accepted. It takes no memory.
    pub(crate) fn advance(&mut self, units: u64) -> Advance
        requires goes_on { (seen self.old).is_open ≡ true }
        requires some { 1 ≤ units }
        requires most { (seen self.old).cursor + units ≤ MOST_NUMBER }
        ensures advances { Advances (seen self.old) units result (seen self.new) }
        ensures found { (spent : ℕ) → result ≡ Found spent → HasFound self.new }
    {
        match self {
            Objects::Texts(texts) => texts.advance(units),
            Objects::Actions(actions) => actions.advance(units),
            Objects::Maps(maps) => maps.advance(units),
        }
    }

    /// What is published of the object that was found.
    #[tactic(auto, using(crate::proofs::Testing::action_published, crate::proofs::Testing::map_published))]
    pub(crate) fn records(&self, alloc: Global) -> Result<Records<Claim>, NoMemory>
        requires { HasFound self.now }
        ensures { IfOk result (λ records. PublishesHere (seen self.now) records) }
    {
        match self {
            Objects::Texts(texts) => settled(alloc, texts.ask(), texts.text()),
            Objects::Actions(actions) => {
                let model = Model::Action(actions.action().copy(alloc)?);
                refuted(alloc, actions.ask(), actions.goal(), model)
            }
            Objects::Maps(maps) => {
                let model = Model::Residues(maps.residues().copy(alloc)?);
                refuted(alloc, maps.ask(), maps.goal(), model)
            }
        }
    }
}
