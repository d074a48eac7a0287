//! Reads statements, form by form.

ghost use Rattle.mg_script.specs.Grammar.{end, statement_rest, word_rest, ask_rest, asked_rest, words_rest, in_rest, from_fund, from_report};
ghost use Rattle.mg_script.specs.Reader.{Start, Knows, Brings, Finishes};

use crate::counted::Counted;
use crate::fault::StatementFault;
use crate::reader::Reader;
use crate::sign::{
    EQUALS, Expected, NAME, NUMBER, PROCEDURE, REPORT, Role, counted_name, keyword, mark,
};
use mg_lex::{Cause, Keyword, Mark};

impl<'a> Reader<'a> {
    /// Takes a statement.
    pub(crate) fn statement(&mut self) -> Result<(), StatementFault>
        ensures { (s : Start) → Knows s statement_rest self.old → Brings s end self.new result }
    {
        if self.takes_keyword(Keyword::Group) {
            self.group()
        } else if self.takes_keyword(Keyword::Word) {
            self.word_statement()
        } else if self.takes_keyword(Keyword::Subgroup) {
            self.subgroup()
        } else if self.takes_keyword(Keyword::Map) {
            self.map()
        } else if self.takes_keyword(Keyword::Ask) {
            self.ask()
        } else {
            self.command()
        }
    }

    /// Takes a statement that spends or prints.
    fn command(&mut self) -> Result<(), StatementFault>
        ensures { (s : Start) → Knows s from_fund self.old → Brings s end self.new result }
    {
        if self.takes_keyword(Keyword::Fund) {
            self.sign(NUMBER)
        } else if self.takes_keyword(Keyword::Grant) {
            self.signs(&[NAME, PROCEDURE, NUMBER])
        } else if self.takes_keyword(Keyword::Run) {
            self.takes(Expected::Number);
            Ok(())
        } else if self.takes_keyword(Keyword::Cancel) {
            self.signs(&[NAME, PROCEDURE])
        } else {
            self.report()
        }
    }

    /// `report`, `report facts` or `report log`
    fn report(&mut self) -> Result<(), StatementFault>
        ensures { (s : Start) → Knows s from_report self.old → Brings s end self.new result }
    {
        self.sign(REPORT)?;
        if !self.takes_keyword(Keyword::Facts) {
            self.takes_keyword(Keyword::Log);
        }
        Ok(())
    }

    /// Takes what declares a word, behind its keyword.
    fn word_statement(&mut self) -> Result<(), StatementFault>
        ensures { (s : Start) → Knows s word_rest self.old → Brings s end self.new result }
    {
        self.signs(&[
            counted_name(Counted::Words),
            keyword(Keyword::In),
            NAME,
            mark(Mark::Equals),
        ])?;
        self.word(Role::Plain)?;
        Ok(())
    }

    /// Takes what declares a question, behind its keyword.
    fn ask(&mut self) -> Result<(), StatementFault>
        ensures { (s : Start) → Knows s ask_rest self.old → Brings s end self.new result }
    {
        self.signs(&[counted_name(Counted::Questions), mark(Mark::Colon)])?;
        self.asked()
    }

    /// Takes a name and its property, or a word and what is asked of it. A name is known by the property
    /// behind it, and counts no letter.
    fn asked(&mut self) -> Result<(), StatementFault>
        ensures { (s : Start) → Knows s asked_rest self.old → Brings s end self.new result }
    {
        if self.is_property_next() {
            self.place += 2;
            return Ok(());
        }
        self.word(Role::Plain)?;
        self.asked_of_word()
    }

    /// Takes what is asked of a word.
    fn asked_of_word(&mut self) -> Result<(), StatementFault>
        ensures { (s : Start) → Knows s words_rest self.old → Brings s end self.new result }
    {
        if self.takes(EQUALS) {
            self.word(Role::Plain)?;
            self.signs(&[keyword(Keyword::In), NAME])
        } else if self.takes_keyword(Keyword::In) {
            self.asked_in()
        } else {
            self.signs(&[keyword(Keyword::Central), keyword(Keyword::In), NAME])
        }
    }

    /// Takes a name, or `kernel` and a name.
    fn asked_in(&mut self) -> Result<(), StatementFault>
        ensures { (s : Start) → Knows s in_rest self.old → Brings s end self.new result }
    {
        if self.takes(NAME.expected) {
            return Ok(());
        }
        self.signs(&[keyword(Keyword::Kernel), NAME])
    }

    /// Sees that no lexeme is left.
    pub(crate) fn end(&self) -> Result<(), StatementFault>
        ensures { (s : Start) → Knows s end self.now → Finishes s self.now result }
    {
        match self.next() {
            Some(_) => Err(self.fault(Cause::Unexpected)),
            None => Ok(()),
        }
    }
}
