//! Lists of a statement.

ghost use Rattle.std.specs.Prelude.{◌≡◌, ◌↔◌, ◌≤◌, IsTrue, OnOk};
ghost use Rattle.mg_script.specs.Grammar.{Rest, relation_then, item_then, list_then, listed_word, listed_arrow};
ghost use Rattle.mg_script.specs.Reader.{Start, Knows, Brings, unread};
ghost use Rattle.mg_script.specs.Lists.{item_of, BeginsRest};

use crate::counted::Counted;
use crate::fault::StatementFault;
use crate::reader::Reader;
use crate::sign::{COMMA, EQUALS, NAME, Role, counted_name, mark};
use mg_lex::Mark;

/// What a list holds.
#[derive(Clone, Copy)]
pub(crate) enum Member {
    /// Names of generators.
    Name,
    /// Words of a subgroup.
    Word,
    Relation,
    /// Names with the words to which they go.
    Arrow,
}

impl<'a> Reader<'a> {
    /// Whether a member of a list begins with the next lexeme.
    fn begins(&self, member: Member) -> bool
        ensures { (r : Rest) → IsTrue result ↔ BeginsRest self.now (item_then (item_of member) r) }
    {
        match member {
            Member::Name => self.is_next(NAME.expected),
            Member::Word => self.begins_word(),
            Member::Relation => self.begins_word(),
            Member::Arrow => self.is_next(NAME.expected),
        }
    }

    /// Takes a word, or an equation of two.
    fn relation(&mut self) -> Result<(), StatementFault>
        ensures brings { (s : Start) (r : Rest) → Knows s (relation_then r) self.old →
            Brings s r self.new result }
        ensures forward { OnOk result (unread self.new ≤ unread self.old) }
    {
        let left = self.word(Role::Counted(Counted::Relators))?;
        if self.takes(EQUALS) {
            self.word(Role::RightSide(left.letters))?;
        }
        Ok(())
    }

    /// Takes a name, an arrow and a word.
    fn arrow(&mut self) -> Result<(), StatementFault>
        ensures brings { (s : Start) (r : Rest) → Knows s (item_then listed_arrow r) self.old →
            Brings s r self.new result }
        ensures forward { OnOk result (unread self.new ≤ unread self.old) }
    {
        self.sign(NAME)?;
        self.sign(mark(Mark::Arrow))?;
        self.word(Role::Plain)?;
        Ok(())
    }

    /// Takes a word of a subgroup.
    fn subgroup_word(&mut self) -> Result<(), StatementFault>
        ensures brings { (s : Start) (r : Rest) → Knows s (item_then listed_word r) self.old →
            Brings s r self.new result }
        ensures forward { OnOk result (unread self.new ≤ unread self.old) }
    {
        self.word(Role::Counted(Counted::Members))?;
        Ok(())
    }

    /// Takes a member of a list.
    fn member(&mut self, member: Member) -> Result<(), StatementFault>
        ensures brings { (s : Start) (r : Rest) → Knows s (item_then (item_of member) r) self.old →
            Brings s r self.new result }
        ensures forward { OnOk result (unread self.new ≤ unread self.old) }
    {
        match member {
            Member::Name => self.sign(counted_name(Counted::Generators)),
            Member::Word => self.subgroup_word(),
            Member::Relation => self.relation(),
            Member::Arrow => self.arrow(),
        }
    }

    /// Takes members with commas between them, which may be none.
    pub(crate) fn list(&mut self, member: Member) -> Result<(), StatementFault>
        ensures { (s : Start) (r : Rest) → Knows s (list_then (item_of member) r) self.old →
            Brings s r self.new result }
    {
        if !self.begins(member) {
            return Ok(());
        }
        self.member(member)?;
        while self.takes(COMMA) {
            self.member(member)?;
        }
        Ok(())
    }
}
