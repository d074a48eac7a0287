//! Reads the lexemes of a statement from left to right.

ghost use Rattle.std.specs.Prelude.{◌≡◌, ◌↔◌, ◌+◌, ◌<◌, ◌≤◌, ◌∷◌, [], List as ListOf, Option as OptionOf, None, length, drop, IsTrue, IfSome, IfNone, IfOk, IfErr, OnOk};
ghost use Rattle.mg_terms.specs.declared.limits.TheConstants.{WORD_LIMIT};
ghost use Rattle.mg_terms.specs.Word.{Word};
ghost use Rattle.mg_terms.specs.Read.{IsRead};
ghost use Rattle.mg_terms.specs.Cause.{IsFaultless};
ghost use Rattle.mg_script.specs.Cause.{IsOneTooMany};
ghost use Rattle.mg_terms.specs.Beginning.{BeginsBase};
ghost use Rattle.mg_script.specs.Grammar.{Rest, sign_then, keyword_then, either, statement_rest};
ghost use Rattle.mg_script.specs.Reader.{Start, Knows, Brings, BringsWord, Chooses, class_of, signs_then, kind_of, IsLeft, unread, IsNext, IsPropertyNext, IsWordThen, BeginsWord};

use crate::counted::{Counts, LETTER_LIMIT};
use crate::fault::StatementFault;
use crate::sign::{Expected, NAME, Role, Sign};
use mg_lex::{Cause, Keyword, Mark};
use mg_terms::{Lexeme, WORD_LIMIT, WordFault, WordRead, read_word};

/// The lexemes of a statement, so many of which are read, and the counts with those of what is read.
#[derive(Drop)]
pub(crate) struct Reader<'a> {
    pub(crate) lexemes: &'a [Lexeme],
    pub(crate) place: usize,
    pub(crate) counts: Counts,
}

impl<'a> Reader<'a> {
    pub(crate) fn new(lexemes: &'a [Lexeme], counts: Counts) -> Reader<'a>
        ensures { Knows (record { lexemes = lexemes.now; counts = counts }) statement_rest result }
    {
        Reader {
            lexemes,
            place: 0,
            counts,
        }
    }

    /// The next lexeme.
    pub(crate) fn next(&self) -> Option<Lexeme>
        ensures some { IfSome result (λ x. (xs : ListOf Lexeme) ×
            (drop self.now.place self.now.lexemes.now ≡ x ∷ xs)) }
        ensures none { IfNone result (drop self.now.place self.now.lexemes.now ≡ []) }
        ensures within { IfSome result (λ x. self.now.place < length self.now.lexemes.now) }
    {
        self.at(self.place)
    }

    /// The lexeme at a place, if there is one.
    fn at(&self, place: usize) -> Option<Lexeme>
        ensures some { IfSome result (λ x. (xs : ListOf Lexeme) ×
            (drop place self.now.lexemes.now ≡ x ∷ xs)) }
        ensures none { IfNone result (drop place self.now.lexemes.now ≡ []) }
        ensures within { IfSome result (λ x. place < length self.now.lexemes.now) }
    {
        self.lexemes.get(place).copied()
    }

    /// Whether the next lexeme may stand there.
    pub(crate) fn is_next(&self, expected: Expected) -> bool
        ensures next { IsTrue result ↔ IsNext self.now (class_of expected) }
        ensures within { IsTrue result → self.now.place < length self.now.lexemes.now }
    {
        match self.next() {
            Some(lexeme) => expected.has(lexeme),
            None => false,
        }
    }

    /// Whether a word begins with the next lexeme.
    pub(crate) fn begins_word(&self) -> bool
        ensures next { IsTrue result ↔ BeginsWord self.now }
        ensures within { IsTrue result → self.now.place < length self.now.lexemes.now }
    {
        match self.next() {
            Some(lexeme) => begins_base(lexeme),
            None => false,
        }
    }

    /// Whether a name and a property come next.
    pub(crate) fn is_property_next(&self) -> bool
        ensures next { IsTrue result ↔ IsPropertyNext (drop self.now.place self.now.lexemes.now) }
        ensures within { IsTrue result → self.now.place + 2 ≤ length self.now.lexemes.now }
    {
        if !self.is_next(NAME.expected) {
            return false;
        }
        match self.at(self.place + 1) {
            Some(behind) => Expected::Property.has(behind),
            None => false,
        }
    }

    /// A fault at the next lexeme.
    pub(crate) fn fault(&self, cause: Cause) -> StatementFault
        ensures { result ≡ record { place = self.now.place; cause = cause } }
    {
        StatementFault {
            place: self.place,
            cause,
        }
    }

    /// Takes the next lexeme, which must be as the sign says.
    pub(crate) fn sign(&mut self, sign: Sign) -> Result<(), StatementFault>
        ensures brings { (s : Start) (r : Rest) →
            Knows s (sign_then sign.counted (class_of sign.expected) r) self.old →
            Brings s r self.new result }
        ensures forward { OnOk result (unread self.new ≤ unread self.old) }
    {
        if !self.is_next(sign.expected) {
            return Err(self.fault(Cause::Unexpected));
        }
        if self.counts.is_full(sign.counted) {
            return Err(self.fault(Cause::TooMany));
        }
        self.counts = self.counts.with(sign.counted);
        self.place += 1;
        Ok(())
    }

    /// Takes lexemes, one for each sign.
    pub(crate) fn signs(&mut self, signs: &[Sign]) -> Result<(), StatementFault>
        ensures brings { (s : Start) (r : Rest) → Knows s (signs_then signs.now r) self.old →
            Brings s r self.new result }
        ensures forward { OnOk result (unread self.new ≤ unread self.old) }
    {
        for sign in signs {
            self.sign(*sign)?;
        }
        Ok(())
    }

    /// Takes the next lexeme if it may stand there.
    pub(crate) fn takes(&mut self, expected: Expected) -> bool
        ensures chooses { (s : Start) (a b : Rest) →
            Knows s (either (sign_then None (class_of expected) a) b) self.old →
            Chooses s a b self.new result }
        ensures forward { IsTrue result → unread self.new < unread self.old }
        ensures kept { unread self.new ≤ unread self.old }
    {
        if self.is_next(expected) {
            self.place += 1;
            return true;
        }
        false
    }

    /// Takes the next lexeme if it is this keyword.
    pub(crate) fn takes_keyword(&mut self, keyword: Keyword) -> bool
        ensures chooses { (s : Start) (a b : Rest) →
            Knows s (either (keyword_then keyword a) b) self.old → Chooses s a b self.new result }
        ensures forward { IsTrue result → unread self.new < unread self.old }
    {
        self.takes(Expected::This(Lexeme::Keyword(keyword)))
    }

    /// Takes a word.
    pub(crate) fn word(&mut self, role: Role) -> Result<WordRead, StatementFault>
        ensures brings { (s : Start) (left : OptionOf Word) (f : Word → Rest) (r : Rest) →
            IsLeft role left →
            IsWordThen (drop self.old.place self.old.lexemes.now) (kind_of role) left f r →
            Knows s r self.old → BringsWord s f self.new result }
        ensures forward { OnOk result (unread self.new ≤ unread self.old) }
    {
        if !self.begins_word() {
            return Err(self.fault(Cause::Unexpected));
        }
        if self.counts.is_full(role.counted()) {
            return Err(self.fault(Cause::TooMany));
        }
        match read_word(&self.lexemes[self.place..]) {
            Ok(word) => self.take_word(role, word),
            Err(fault) => Err(self.word_fault(fault)),
        }
    }

    /// A fault in the word that begins with the next lexeme.
    fn word_fault(&self, fault: WordFault) -> StatementFault
        requires { self.now.place + fault.place ≤ length self.now.lexemes.now }
        ensures { result ≡ record { place = self.now.place + fault.place; cause = fault.cause } }
    {
        StatementFault {
            place: self.place + fault.place,
            cause: fault.cause,
        }
    }

    /// Takes a word that has been read.
    fn take_word(&mut self, role: Role, word: WordRead) -> Result<WordRead, StatementFault>
        requires read { IsRead (drop self.old.place self.old.lexemes.now) word }
        requires faultless { IsFaultless (drop self.old.place self.old.lexemes.now) }
        requires letters { word.letters ≤ WORD_LIMIT }
        requires some { 1 ≤ word.count }
        requires within { self.old.place + word.count ≤ length self.old.lexemes.now }
        requires room { ¬ IsOneTooMany self.old.counts [] (kind_of role) }
        ensures brings { (s : Start) (left : OptionOf Word) (f : Word → Rest) (r : Rest) →
            IsLeft role left →
            IsWordThen (drop self.old.place self.old.lexemes.now) (kind_of role) left f r →
            Knows s r self.old → BringsWord s f self.new result }
        ensures forward { OnOk result (unread self.new ≤ unread self.old) }
    {
        let last = self.place + word.count - 1;
        if role.left_letters() as u64 + word.letters as u64 > WORD_LIMIT as u64 {
            return Err(StatementFault {
                place: last,
                cause: Cause::WordTooLong,
            });
        }
        if self.counts.letters > LETTER_LIMIT - word.letters {
            return Err(StatementFault {
                place: last,
                cause: Cause::TooMany,
            });
        }
        self.counts = self.counts.with(role.counted()).with_letters(word.letters);
        self.place += word.count;
        Ok(word)
    }
}

/// Whether a base of a word begins with the lexeme.
fn begins_base(lexeme: Lexeme) -> bool
    ensures { IsTrue result ↔ BeginsBase lexeme }
{
    match lexeme {
        Lexeme::Name => true,
        Lexeme::Number(value) => value == 1,
        Lexeme::Mark(mark) => mark == Mark::OpenRound || mark == Mark::OpenSquare,
        Lexeme::Keyword(_) => false,
        Lexeme::RelatorSign => false,
    }
}
