//! The search.
ghost use Rattle.std.specs.Prelude.{◌≡◌, ◌↔◌, ◌+◌, ◌^◌, ◌<◌, ◌≤◌, true, None, Some, Ok, [], IfOk, IfSome, IsTrue, OnOk, length};
ghost use Rattle.std.specs.List.{AllByRecursion};
ghost use Rattle.mg_turn.specs.Stops.{StopsBy};
ghost use Rattle.mg_certs.specs.Validity.{group_of};
ghost use Rattle.mg_nielsen.specs.Expressed.{Expressed as ExpressedOf};
ghost use Rattle.mg_turn.specs.declared.bounds.TheConstants.{MOST_SYMBOLS};
ghost use Rattle.mg_nielsen.specs.Expressed.{empty};
ghost use Rattle.mg_nielsen.specs.Moves.{IsKept, NothingShortens, trimmed, peeled, member_at, signs_in};
ghost use Rattle.mg_nielsen.specs.Turn.{NielsenTurn, NoRest, first_members, first_rests, first_search, searching};
ghost use Rattle.mg_nielsen.specs.Choice.{IsNumber, numbered, IsPick, picked, IsStep, made, IsMove, HasMade, IsLast, HasTried};
ghost use Rattle.mg_nielsen.specs.declared.nielsen.Move.TheVariants.{Peel, Step};
ghost use Rattle.mg_nielsen.specs.Sounds.{nielsen_sound};

use crate::choice::{Pick, StepPick, best_step, first_peeling};
use crate::expressed::Expressed;
use crate::text::{is_short_enough, published, symbols_of};
use mg_certs::Claim;
use mg_core::{Facts, NoMemory, Records};
use mg_present::{Ask, Presentation};
use mg_turn::{Limit, MOST_LETTERS, MOST_SYMBOLS, Outcome, Searcher, Stop, TurnEnd, known_verdict};
use mg_words::{Letter, Word, Words};
use std::alloc::Global;
use std::marker::Model;

/// A search that shortens the tuple of subgroup words by Nielsen's elementary steps and peels the goals with it. A
/// unit is one step or one peeling.
#[derive(Debug, Drop)]
pub struct Nielsen {
    ask: Ask,
    members: Vec<Expressed>,
    rests: Vec<Expressed>,
    held: u64,
    spent: u64,
    is_open: bool,
}

impl Model for Nielsen {
    ghost use Rattle.mg_nielsen.specs.Moves.{Nielsen};
    ghost use Rattle.mg_nielsen.specs.Choice.{IsHeld};

    ghost Value = { Nielsen };

    ghost view = { λ s. record {
      ask = s.ask;
      members = s.members.items;
      rests = s.rests.items;
      spent = s.spent;
      is_open = s.is_open;
    } };

    ghost invariant = { λ s. IsHeld s.held (record {
      ask = s.ask;
      members = s.members.items;
      rests = s.rests.items;
      spent = s.spent;
      is_open = s.is_open;
    }) };
}

// One unit.
#[derive(Clone, Copy, Debug)]
enum Move {
    // The rest of a goal is peeled.
    Peel(usize, Pick),
    // A member is shortened.
    Step(StepPick),
}

impl Nielsen {
    /// A search that has made no step yet.
    pub fn start(alloc: Global, ask: &Ask) -> Result<Nielsen, NoMemory>
        requires { ask.now.group.relators ≡ [] }
        ensures { IfOk result (λ search. search ≡ first_search ask.now) }
    {
        let members = first_members(alloc, ask.subgroup())?;
        let rests = first_rests(alloc, ask.goals())?;
        Ok(Nielsen {
            ask: ask.copy(alloc)?,
            held: members.len() as u64,
            members,
            rests,
            spent: 0,
            is_open: true,
        })
    }

    /// The units spent.
    pub fn spent(&self) -> u64
        ensures value { result ≡ self.now.spent }
        ensures kept { IsKept self.now }
    {
        self.spent
    }

    // Whether every goal is peeled away.
    fn is_done(&self) -> bool
        ensures { IsTrue result ↔ NoRest self.now }
    {
        self.rests.iter().all(|rest| rest.is_empty())
    }

    // The next unit: a peeling of the first goal that has one, or else a step.
    fn next_move(&self) -> Option<Move>
        ensures some { IfSome result (λ next. IsMove self.now next) }
        ensures none { result ≡ None → NothingShortens self.now }
    {
        match first_peeling(&self.members, &self.rests) {
            Some((goal, pick)) => Some(Move::Peel(goal, pick)),
            None => match best_step(&self.members) {
                Some(pick) => Some(Move::Step(pick)),
                None => None,
            },
        }
    }

    // Makes a unit. It answers false, and changes nothing, where the lists of signs would pass their limit.
    fn make(&mut self, alloc: Global, next: Move) -> Result<bool, NoMemory>
        requires next { IsMove self.old next }
        requires few { self.old.spent < 2 ^ 62 }
        ensures { IfOk result (λ made. HasMade self.old made self.new) }
    {
        match next {
            Move::Peel(goal, pick) => self.peel(alloc, goal, pick),
            Move::Step(pick) => self.step(alloc, pick),
        }
    }

    // Peels a goal.
    fn peel(&mut self, alloc: Global, goal: usize, pick: Pick) -> Result<bool, NoMemory>
        requires next { IsMove self.old (Peel goal pick) }
        requires few { self.old.spent < 2 ^ 62 }
        ensures { IfOk result (λ made. HasMade self.old made self.new) }
    {
        let rest = peeled(alloc, &self.members, &self.rests, goal, pick)?;
        let held = held_with(&self.rests, goal, &rest, self.held);
        if held > MOST_SYMBOLS {
            return Ok(false);
        }
        self.rests[goal] = rest;
        self.held = held;
        self.spent += 1;
        Ok(true)
    }

    // Makes an elementary step.
    fn step(&mut self, alloc: Global, pick: StepPick) -> Result<bool, NoMemory>
        requires next { IsMove self.old (Step pick) }
        requires few { self.old.spent < 2 ^ 62 }
        ensures { IfOk result (λ made. HasMade self.old made self.new) }
    {
        let member = stepped(alloc, &self.members, pick)?;
        let held = held_with(&self.members, pick.place, &member, self.held);
        if held > MOST_SYMBOLS {
            return Ok(false);
        }
        self.members[pick.place] = member;
        self.held = held;
        self.spent += 1;
        Ok(true)
    }

    // How the search ends where every goal is peeled away.
    fn last_end(&self, alloc: Global) -> Result<TurnEnd<Claim>, NoMemory>
        requires { NoRest self.now }
        ensures { IfOk result (λ end. IsLast self.now end) }
    {
        let text = symbols_of(alloc, &self.rests)?;
        if text.len() as u64 > MOST_SYMBOLS {
            return Ok(TurnEnd::Full {
                what: Limit::Symbols,
                count: MOST_SYMBOLS,
            });
        }
        if !is_short_enough(&self.ask, &text) {
            return Ok(TurnEnd::Full {
                what: Limit::Letters,
                count: MOST_LETTERS,
            });
        }
        Ok(TurnEnd::Found(published(alloc, &self.ask, &text)?))
    }

    // Makes the next unit, or tells how the search ends.
    fn try_unit(&mut self, alloc: Global) -> Result<Option<TurnEnd<Claim>>, NoMemory>
        requires { self.old.spent < 2 ^ 62 }
        ensures { IfOk result (λ tried. HasTried self.old tried self.new) }
    {
        if self.is_done() {
            return Ok(Some(self.last_end(alloc)?));
        }
        let Some(next) = self.next_move() else {
            return Ok(Some(TurnEnd::Closed(Records::new(alloc))));
        };
        if self.make(alloc, next)? {
            return Ok(None);
        }
        Ok(Some(TurnEnd::Full {
            what: Limit::Symbols,
            count: MOST_SYMBOLS,
        }))
    }
}

impl Searcher<Claim> for Nielsen {
    ghost searching = { searching };

    fn key(&self) -> &Ask {
        &self.ask
    }

    fn group(&self) -> &Presentation {
        self.ask.group()
    }

    fn wants(&self, _units: u64) -> u32 {
        0
    }

    /// One turn, which looks at its Stop before each unit.
    fn turn<T: Stop<Claim>>(
        &mut self,
        alloc: Global,
        units: u64,
        facts: Facts<Claim>,
        stop: &mut T,
    ) -> Result<Outcome<Claim>, NoMemory>
        requires is_open { self.old.is_open ≡ true }
        requires some_units { 1 ≤ units }
        requires in_all { self.old.spent + units ≤ 2 ^ 62 }
        requires few { length facts.records ≤ 0 }
        requires of_group { AllByRecursion (λ fact. group_of fact ≡
            Some self.old.ask.group) facts.records }
        ensures turns { IfOk result (λ outcome. NielsenTurn self.old units outcome self.new) }
        ensures key { OnOk result (self.new.ask ≡ self.old.ask) }
        ensures group { OnOk result (self.new.ask.group ≡ self.old.ask.group) }
        ensures stopped { IfOk result (λ outcome. StopsBy outcome.end (T.known stop.new)) }
    {
        drop(facts);
        for spent in 0..units {
            if let Some(seen) = known_verdict(alloc, &self.ask, stop)? {
                return Ok(Outcome {
                    spent,
                    end: TurnEnd::Stopped(seen),
                });
            }
            if let Some(end) = self.try_unit(alloc)? {
                self.is_open = false;
                return Ok(Outcome { spent, end });
            }
        }
        if self.is_done() {
            let end = self.last_end(alloc)?;
            self.is_open = false;
            return Ok(Outcome { spent: units, end });
        }
        Ok(Outcome {
            spent: units,
            end: TurnEnd::More,
        })
    }

    ghost sound = { nielsen_sound };
}

// The subgroup words with their own signs.
fn first_members(alloc: Global, words: &Words) -> Result<Vec<Expressed>, NoMemory>
    requires { length words.now ≤ 64 }
    ensures { IfOk result (λ members. members.items ≡ first_members 1 words.now) }
{
    let mut members = Vec::new(alloc);
    for place in 0..words.len() {
        let sign = Letter {
            generator: place as u8 + 1,
            inverse: false,
        };
        let signs = Word::from_letters(alloc, &[sign])?;
        members.push(Expressed::new(alloc, words.at(place).copy(alloc)?, signs)?)?;
    }
    Ok(members)
}

// The goals without signs.
fn first_rests(alloc: Global, goals: &Words) -> Result<Vec<Expressed>, NoMemory>
    ensures { IfOk result (λ rests. rests.items ≡ first_rests goals.now) }
{
    let mut rests = Vec::new(alloc);
    for goal in goals.as_slice() {
        rests.push(Expressed::new(alloc, goal.copy(alloc)?, Word::new(alloc))?)?;
    }
    Ok(rests)
}

// The factor with a number.
fn factor_of(alloc: Global, members: &[Expressed], number: usize) -> Result<Expressed, NoMemory>
    requires { IsNumber members.now number }
    ensures { IfOk result (λ e. e ≡ numbered members.now number) }
{
    if number < members.len() {
        members[number].turned(alloc, false)
    } else {
        members[number - members.len()].turned(alloc, true)
    }
}

// One factor, or the product of two.
fn picked(alloc: Global, members: &[Expressed], pick: Pick) -> Result<Expressed, NoMemory>
    requires { IsPick members.now pick }
    ensures { IfOk result (λ e. e ≡ picked members.now pick) }
{
    match pick {
        Pick::One(number) => factor_of(alloc, members, number),
        Pick::Two(first, second) => {
            let factor = factor_of(alloc, members, first)?;
            factor.times(alloc, &factor_of(alloc, members, second)?)
        }
    }
}

// The rest of a goal, peeled.
fn peeled(
    alloc: Global,
    members: &[Expressed],
    rests: &[Expressed],
    goal: usize,
    pick: Pick,
) -> Result<Expressed, NoMemory>
    requires pick { IsPick members.now pick }
    requires goal { goal < length rests.now }
    ensures { IfOk result (λ e. e ≡ peeled (picked members.now pick) (member_at rests.now goal)) }
{
    let factor = picked(alloc, members, pick)?;
    rests[goal].peeled(alloc, &factor)
}

// The product of a member with a factor, without signs where it is empty.
fn stepped(alloc: Global, members: &[Expressed], pick: StepPick) -> Result<Expressed, NoMemory>
    requires { IsStep members.now pick }
    ensures { IfOk result (λ e. e ≡ trimmed (made members.now pick)) }
{
    let factor = factor_of(alloc, members, pick.number)?;
    let member = &members[pick.place];
    let product = if pick.left {
        factor.times(alloc, member)?
    } else {
        member.times(alloc, &factor)?
    };
    Ok(product.trimmed(alloc))
}

// How many signs there are with this in the place of a member of the list.
fn held_with(list: &[Expressed], place: usize, new: &Expressed, held: u64) -> u64
    requires place { place < length list.now }
    requires held { signs_in list.now ≤ held }
    requires few { held ≤ MOST_SYMBOLS }
    ensures { result + length (member_at list.now place).signs ≡ held + length new.now.signs }
{
    let before = list[place].signs().len() as u64;
    held - before + new.signs().len() as u64
}
