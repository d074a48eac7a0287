//! Statements that hold a list.

ghost use Rattle.mg_script.specs.Grammar.{Rest, either, mark_then, list_then, listed_relation, group_rest, subgroup_rest, map_rest, end};
ghost use Rattle.mg_script.specs.Reader.{Start, Knows, Brings};

use crate::counted::Counted;
use crate::fault::StatementFault;
use crate::lists::Member;
use crate::reader::Reader;
use crate::sign::{BAR, NAME, counted_name, keyword, mark};
use mg_lex::{Keyword, Mark};

impl<'a> Reader<'a> {
    /// Takes what declares a group, behind its keyword.
    pub(crate) fn group(&mut self) -> Result<(), StatementFault>
        ensures { (s : Start) → Knows s group_rest self.old → Brings s end self.new result }
    {
        self.signs(&[
            counted_name(Counted::Groups),
            mark(Mark::Equals),
            mark(Mark::Less),
        ])?;
        self.list(Member::Name)?;
        self.relations()?;
        self.sign(mark(Mark::Greater))
    }

    /// Takes the bar and the relations of a group, which may be left out together.
    fn relations(&mut self) -> Result<(), StatementFault>
        ensures { (s : Start) (r : Rest) →
            Knows s (either (mark_then Mark.Bar (list_then listed_relation r)) r) self.old →
            Brings s r self.new result }
    {
        if self.takes(BAR) {
            return self.list(Member::Relation);
        }
        Ok(())
    }

    /// Takes what declares a subgroup, behind its keyword.
    pub(crate) fn subgroup(&mut self) -> Result<(), StatementFault>
        ensures { (s : Start) → Knows s subgroup_rest self.old → Brings s end self.new result }
    {
        self.signs(&[
            counted_name(Counted::Subgroups),
            keyword(Keyword::Of),
            NAME,
            mark(Mark::Equals),
            mark(Mark::Less),
        ])?;
        self.list(Member::Word)?;
        self.sign(mark(Mark::Greater))
    }

    /// Takes what declares a map, behind its keyword.
    pub(crate) fn map(&mut self) -> Result<(), StatementFault>
        ensures { (s : Start) → Knows s map_rest self.old → Brings s end self.new result }
    {
        self.signs(&[
            counted_name(Counted::Maps),
            mark(Mark::Colon),
            NAME,
            mark(Mark::Arrow),
            NAME,
            mark(Mark::Equals),
            mark(Mark::OpenSquare),
        ])?;
        self.list(Member::Arrow)?;
        self.sign(mark(Mark::CloseSquare))
    }
}
