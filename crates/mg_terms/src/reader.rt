//! A word is read lexeme by lexeme, from left to right, with the open brackets on a stack.

ghost use Rattle.std.specs.Prelude.{◌≡◌, [], ◌∷◌, ◌++◌, ◌+◌, ◌*◌, ◌<◌, ◌≤◌, ℕ, Bool, List as ListOf, length, IsTrue, IfOk, IfErr, OnOk};
ghost use Rattle.mg_terms.specs.declared.limits.TheConstants.{WORD_LIMIT, DEPTH_LIMIT};
ghost use Rattle.mg_terms.specs.Word.{Base, Word, base_letters, word_letters};
ghost use Rattle.mg_terms.specs.Event.{AreWithin};
ghost use Rattle.mg_terms.specs.Reading.{Before, Frame, State, state, start, front, behind, caret, minus, whole, round_step, comma_step, square_step, whole_step, begin_step, number_step, step, number_count, state_lexemes, state_events, closed_state};
ghost use Rattle.mg_terms.specs.Reader.{kept, around, begun, before_letters, Has, IsReady, Took, Brings, Steps, HasStopped, Ends};
ghost use Rattle.mg_terms.specs.Cause.{IsFirstCause};

use crate::around::{Around, Begun, Bracket, OUTERMOST};
use crate::fault::WordFault;
use crate::letters::{commutator, product, within};
use crate::lexeme::Lexeme;
use crate::limits::DEPTH_LIMIT;
use mg_lex::{Cause, Mark};

/// What was read last in the innermost word.
#[derive(Clone, Copy)]
pub(crate) enum Position {
    /// Its bracket or a star: a factor must come.
    Front,
    /// A base with so many letters: an exponent may come.
    Base(u32),
    /// The caret behind a base.
    Caret(u32),
    /// The minus sign behind a caret.
    Minus(u32),
    /// A factor with its exponent.
    Whole,
}

/// What has been read of a word.
#[derive(Drop)]
pub(crate) struct Reader {
    pub(crate) around: Around,
    pub(crate) word: Begun,
    pub(crate) position: Position,
}

impl Reader {
    pub(crate) fn new() -> Reader
        ensures { kept start ≡ result }
    {
        Reader {
            around: Around::new(),
            word: OUTERMOST,
            position: Position::Front,
        }
    }

    /// Takes an opening bracket.
    fn open(&mut self, bracket: Bracket, place: usize) -> Result<bool, WordFault>
        ensures taken { IfOk result IsTrue }
        ensures room { OnOk result (length self.old.around < DEPTH_LIMIT) }
        ensures opened { OnOk result (self.new ≡ record {
          around = self.old.around ++ self.old.word ∷ [];
          word = record { bracket = bracket; letters = 0 };
          position = Position.Front;
        }) }
        ensures fault { IfErr result (λ f.
            (f.place ≡ place) × (f.cause ≡ Cause.TooMany) ×
            (DEPTH_LIMIT ≤ length self.old.around)) }
    {
        if self.around.depth() >= DEPTH_LIMIT {
            return Err(WordFault {
                place,
                cause: Cause::TooMany,
            });
        }
        self.around.push(self.word);
        self.word = Begun {
            bracket,
            letters: 0,
        };
        self.position = Position::Front;
        Ok(true)
    }

    /// Closes the innermost bracket: what it holds is a base with so many letters.
    fn close(&mut self, letters: u32)
        ensures { (outer : ListOf Begun) (word : Begun) → self.old.around ≡ outer ++ word ∷ [] →
            self.new ≡ record { around = outer; word = word; position = Position.Base letters } }
    {
        if let Some(word) = self.around.pop() {
            self.word = word;
            self.position = Position::Base(letters);
        }
    }

    /// Takes the lexeme if a base begins with it.
    fn begin(&mut self, lexeme: Lexeme, place: usize) -> Result<bool, WordFault>
        ensures { (fs : ListOf Frame) (before : Before) → Has self.old fs (before_letters before) →
            IsReady (state fs (front before)) place →
            Brings (state_events (state fs (front before)))
            (begin_step fs before lexeme) place self.old self.new result }
    {
        match lexeme {
            Lexeme::Name => {
                self.position = Position::Base(1);
                Ok(true)
            }
            Lexeme::Number(1) => {
                self.position = Position::Base(0);
                Ok(true)
            }
            Lexeme::Mark(Mark::OpenRound) => self.open(Bracket::Round, place),
            Lexeme::Mark(Mark::OpenSquare) => self.open(Bracket::Left, place),
            _ => Ok(false),
        }
    }

    /// Takes a closing parenthesis behind a whole word.
    fn close_round(&mut self) -> bool
        ensures { (fs : ListOf Frame) (w : Word) → Has self.old fs (word_letters w) →
            AreWithin (state_events (state fs (whole w))) →
            Took (round_step fs w) self.old self.new result }
    {
        match self.word.bracket {
            Bracket::Round => {
                self.close(self.word.letters);
                true
            }
            _ => false,
        }
    }

    /// Takes a comma behind a whole word.
    fn comma(&mut self) -> bool
        ensures { (fs : ListOf Frame) (w : Word) → Has self.old fs (word_letters w) →
            AreWithin (state_events (state fs (whole w))) →
            Took (comma_step fs w) self.old self.new result }
    {
        match self.word.bracket {
            Bracket::Left => {
                self.word = Begun {
                    bracket: Bracket::Right(self.word.letters),
                    letters: 0,
                };
                self.position = Position::Front;
                true
            }
            _ => false,
        }
    }

    /// Takes a closing bracket behind a whole word.
    fn close_square(&mut self, place: usize) -> Result<bool, WordFault>
        ensures { (fs : ListOf Frame) (w : Word) → Has self.old fs (word_letters w) →
            IsReady (state fs (whole w)) place →
            Brings (state_events (state fs (whole w)))
            (square_step fs w) place self.old self.new result }
    {
        match self.word.bracket {
            Bracket::Right(left) => match within(commutator(left, self.word.letters)) {
                Some(letters) => {
                    self.close(letters);
                    Ok(true)
                }
                None => Err(WordFault {
                    place,
                    cause: Cause::WordTooLong,
                }),
            },
            _ => Ok(false),
        }
    }

    /// Takes the lexeme behind a whole word.
    fn go_on(&mut self, lexeme: Lexeme, place: usize) -> Result<bool, WordFault>
        ensures { (fs : ListOf Frame) (w : Word) → Has self.old fs (word_letters w) →
            IsReady (state fs (whole w)) place →
            Brings (state_events (state fs (whole w)))
            (whole_step fs w lexeme) place self.old self.new result }
    {
        if lexeme.is(Mark::Star) {
            self.position = Position::Front;
            Ok(true)
        } else if lexeme.is(Mark::CloseRound) {
            Ok(self.close_round())
        } else if lexeme.is(Mark::Comma) {
            Ok(self.comma())
        } else if lexeme.is(Mark::CloseSquare) {
            self.close_square(place)
        } else {
            self.begin(lexeme, place)
        }
    }

    /// Counts a power of a base, whose last lexeme stands at the place, as a factor.
    fn grow(&mut self, base: u32, exponent: u64, place: usize) -> Result<(), WordFault>
        ensures within { OnOk result (self.old.word.letters + base * exponent ≤ WORD_LIMIT) }
        ensures grown { OnOk result (self.new ≡ record {
          around = self.old.around;
          word = record { bracket = self.old.word.bracket; letters = self.old.word.letters + base * exponent };
          position = Position.Whole;
        }) }
        ensures fault { IfErr result (λ f. (f.place ≡ place) × (f.cause ≡ Cause.WordTooLong) ×
            (WORD_LIMIT < self.old.word.letters + base * exponent)) }
    {
        match within(product(self.word.letters, base, exponent)) {
            Some(letters) => {
                self.word.letters = letters;
                self.position = Position::Whole;
                Ok(())
            }
            None => Err(WordFault {
                place,
                cause: Cause::WordTooLong,
            }),
        }
    }

    /// Takes the number of an exponent.
    fn exponent(&mut self, base: u32, lexeme: Lexeme, place: usize) -> Result<bool, WordFault>
        ensures { (fs : ListOf Frame) (before : Before) (b : Base) (negative : Bool) →
            Has self.old fs (before_letters before) → base ≡ base_letters b →
            number_count fs before b negative ≡ place →
            AreWithin (state_events (state fs (behind before b))) →
            Brings (state_events (state fs (behind before b)))
            (number_step fs before b negative lexeme)
            place self.old self.new result }
    {
        match lexeme {
            Lexeme::Number(exponent) => {
                self.grow(base, exponent, place)?;
                Ok(true)
            }
            _ => Ok(false),
        }
    }

    /// Takes the lexeme behind a base.
    fn behind_base(&mut self, base: u32, lexeme: Lexeme, place: usize) -> Result<bool, WordFault>
        requires { 1 ≤ place }
        ensures { (fs : ListOf Frame) (before : Before) (b : Base) →
            Has self.old fs (before_letters before) → base ≡ base_letters b →
            IsReady (state fs (behind before b)) place →
            Steps (state fs (behind before b)) lexeme place self.new result }
    {
        if lexeme.is(Mark::Caret) {
            self.position = Position::Caret(base);
            return Ok(true);
        }
        self.grow(base, 1, place - 1)?;
        self.go_on(lexeme, place)
    }

    /// Takes the lexeme behind a caret.
    fn behind_caret(&mut self, base: u32, lexeme: Lexeme, place: usize) -> Result<bool, WordFault>
        ensures { (fs : ListOf Frame) (before : Before) (b : Base) →
            Has self.old fs (before_letters before) → base ≡ base_letters b →
            IsReady (state fs (caret before b)) place →
            Brings (state_events (state fs (caret before b)))
            (step (state fs (caret before b)) lexeme)
            place self.old self.new result }
    {
        if lexeme.is(Mark::Minus) {
            self.position = Position::Minus(base);
            return Ok(true);
        }
        self.exponent(base, lexeme, place)
    }

    /// Takes the lexeme at the place if a word goes on with it.
    pub(crate) fn step(&mut self, lexeme: Lexeme, place: usize) -> Result<bool, WordFault>
        requires { (base : ℕ) → self.old.position ≡ Position.Base base → 1 ≤ place }
        ensures { (s : State) → kept s ≡ self.old → IsReady s place →
            Steps s lexeme place self.new result }
    {
        match self.position {
            Position::Front => self.begin(lexeme, place),
            Position::Base(base) => self.behind_base(base, lexeme, place),
            Position::Caret(base) => self.behind_caret(base, lexeme, place),
            Position::Minus(base) => self.exponent(base, lexeme, place),
            Position::Whole => self.go_on(lexeme, place),
        }
    }

    /// Takes lexemes as long as a word goes on with them, and tells how many.
    pub(crate) fn read(&mut self, lexemes: &[Lexeme]) -> Result<usize, WordFault>
        requires { self.old ≡ kept start }
        ensures stopped { IfOk result (λ count. HasStopped lexemes.now count self.new) }
        ensures refused { IfErr result (λ f. IsFirstCause lexemes.now f.place f.cause) }
    {
        for (place, lexeme) in lexemes.iter().enumerate() {
            if !self.step(*lexeme, place)? {
                return Ok(place);
            }
        }
        Ok(lexemes.len())
    }

    /// How many letters the word has that ends before the place, behind a whole factor.
    fn whole(&self, place: usize) -> Result<u32, WordFault>
        ensures { (s : State) → kept s ≡ self.now → closed_state s ≡ s →
            AreWithin (state_events s) → Ends s place result }
    {
        let unexpected = WordFault {
            place,
            cause: Cause::Unexpected,
        };
        let Position::Whole = self.position else {
            return Err(unexpected);
        };
        let Bracket::Outermost = self.word.bracket else {
            return Err(unexpected);
        };
        Ok(self.word.letters)
    }

    /// How many letters the word has that ends before the place.
    pub(crate) fn end(&mut self, place: usize) -> Result<u32, WordFault>
        requires { (base : ℕ) → self.old.position ≡ Position.Base base → 1 ≤ place }
        ensures { (s : State) → kept s ≡ self.old → IsReady s place → Ends s place result }
    {
        match self.position {
            Position::Base(base) => {
                self.grow(base, 1, place - 1)?;
                self.whole(place)
            }
            _ => self.whole(place),
        }
    }
}
