//! A board over marks.
ghost use Rattle.std.specs.Prelude.{◌≡◌, ◌+◌, ◌≤◌, Option, Some, None, true, false, if◌then◌else◌, IfOk, IfSome, length, [], ◌∷◌};
ghost use Rattle.std.specs.List.{AllByRecursion};
ghost use Rattle.std.proofs.Common.{rules};
ghost use Rattle.std.proofs.lemmas.Map.Lookups.{exact_unsigned};
ghost use Rattle.mg_board.specs.Passes.{dealt, IsAlone};

use super::*;
use mg_core::{Book, Committed, Entries, Entry, Record, Records};
use std::alloc::Global;
use std::sync::Wait;
use std::test::Fail;
use std::thread;
use std::thread::Threads;

/// A mark settles its number, or is a model of it.
#[derive(Debug, Drop, PartialEq)]
struct Mark {
    settling: bool,
    number: u32,
}

impl Record for Mark {
    type Key = u32;

    type Group = u32;

    ghost recording = { record {
      valid = λ _. Unit {0};
      settles = λ m. (if m.settling then Some m.number else None);
      model_of = λ m. (if m.settling then None else Some m.number);
    } };

    fn settles(&self) -> Option<&u32> {
        if self.settling {
            Some(&self.number)
        } else {
            None
        }
    }

    fn model_of(&self) -> Option<&u32> {
        if self.settling {
            None
        } else {
            Some(&self.number)
        }
    }

    fn copy(&self, _alloc: Global) -> Result<Mark, NoMemory> {
        Ok(Mark {
            settling: self.settling,
            number: self.number,
        })
    }

    ghost lawful = { record {
      exact_keys = exact_unsigned;
      exact_groups = exact_unsigned;
      one_of_both = λ m _. Prim.search rules;
    } };
}

/// The entry of a turn that found nothing.
fn empty(alloc: Global, pass: u32, turn: u64) -> Entry<Mark>
    ensures { (result.pass ≡ pass) × (result.dropped ≡ false) × (result.records ≡ []) }
{
    Entry {
        pass,
        search: pass,
        turn,
        units: 1,
        dropped: false,
        records: Records::new(alloc),
    }
}

/// The entry of a turn that found a mark of 7.
fn marked(alloc: Global, pass: u32, turn: u64, settling: bool) -> Result<Entry<Mark>, NoMemory>
    ensures entry { IfOk result (λ e. (e.pass ≡ pass) × (e.dropped ≡ false)) }
    ensures mark { IfOk result (λ e.
        e.records ≡ (record { settling = settling; number = 7 }) ∷ []) }
{
    let mut entry = empty(alloc, pass, turn);
    entry.records.push(Mark {
        settling,
        number: 7,
    })?;
    Ok(entry)
}

/// The last of these passes.
fn last(_board: &Board<Mark>, passes: &mut Passes<Mark>, n: u32) -> Pass<Mark>
    requires { passes.old ≡ dealt _board.now 0 (n + 1) }
    ensures alone { IsAlone _board.now n result }
    ensures rest { passes.new ≡ dealt _board.now 0 n }
{
    let Some(last) = passes.pop() else {
        unreachable!();
    };
    last
}

/// Commits an entry for the key 7.
fn put<W: Wait>(
    rt: &W,
    board: &Board<Mark>,
    pass: &mut Pass<Mark>,
    n: u32,
    entry: Entry<Mark>,
) -> Result<Committed, NoMemory>
    requires alone { IsAlone board.now n pass.old }
    requires number { entry.pass ≡ n }
    requires kept { entry.dropped ≡ false }
    requires few { length entry.records ≤ 1 }
    requires of_key { AllByRecursion (λ r.
        IfSome (if r.settling then Some r.number else None) (λ k. k ≡ 7)) entry.records }
    ensures alone { IsAlone board.now n pass.new }
{
    let receipt = board.commit(rt, pass, &7, entry)?;
    Ok(receipt.committed)
}

/// How many models of 7 the pass finds.
fn models<W: Wait>(
    rt: &W,
    alloc: Global,
    board: &Board<Mark>,
    pass: &mut Pass<Mark>,
    n: u32,
    most: u32,
) -> Result<usize, NoMemory>
    requires alone { IsAlone board.now n pass.old }
    ensures alone { IsAlone board.now n pass.new }
{
    let facts = board.facts_since(rt, alloc, pass, &7, 0, most)?;
    Ok(facts.records.as_slice().len())
}

/// The book of a board whose three passes meet.
fn closed(board: Board<Mark>, a: Pass<Mark>, b: Pass<Mark>, c: Pass<Mark>) -> Book<Mark>
    requires three { board.passes ≡ 3 }
    requires a { IsAlone board 0 a }
    requires b { IsAlone board 1 b }
    requires c { IsAlone board 2 c }
{
    let both = board.meet(b, c);
    let all = board.meet(a, both);
    Board::close(board, all)
}

/// A board with its passes 0, 1 and 2.
type Three = (Board<Mark>, Pass<Mark>, Pass<Mark>, Pass<Mark>);

/// Opens a book with three passes.
fn opened(alloc: Global, book: Book<Mark>) -> Result<Three, NoMemory>
    ensures three { IfOk result (λ r. r.0.passes ≡ 3) }
    ensures alone { IfOk result (λ r.
        IsAlone r.0 0 r.1 × IsAlone r.0 1 r.2 × IsAlone r.0 2 r.3) }
{
    let (board, mut passes) = Board::start(alloc, book, 3)?;
    let two = last(&board, &mut passes, 2);
    let one = last(&board, &mut passes, 1);
    let zero = last(&board, &mut passes, 0);
    Ok((board, zero, one, two))
}

/// Whether the next entry is this turn of the pass, which was kept and found nothing.
fn is_next(entries: &mut Entries<'_, Mark>, pass: u32, turn: u64) -> bool {
    match entries.next() {
        Some(entry) => {
            (entry.pass, entry.turn) == (pass, turn) && !entry.dropped && entry.records.is_empty()
        }
        None => false,
    }
}

/// Whether the next entry is the first turn of the pass, dropped or not, with so many records.
fn is_first_turn(
    entries: &mut Entries<'_, Mark>,
    pass: u32,
    dropped: bool,
    records: usize,
) -> bool {
    match entries.next() {
        Some(entry) => {
            (entry.pass, entry.turn) == (pass, 0)
                && entry.dropped == dropped
                && entry.records.len() == records
        }
        None => false,
    }
}

/// Whether the book has two entries, of passes 1 and 2, the second one dropped.
fn has_one_and_a_dropped_one(book: &Book<Mark>) -> bool {
    let mut entries = book.entries();
    is_first_turn(&mut entries, 1, false, 1)
        && is_first_turn(&mut entries, 2, true, 0)
        && entries.next().is_none()
}

/// Whether an entry was dropped at place 2 by fact 1.
fn is_dropped_second(committed: Committed) -> bool {
    match committed {
        Committed::Kept { .. } => false,
        Committed::Dropped { place, by } => place == 2 && by == 1,
    }
}

/// Pass 1 settles 7, and an entry of pass 2 for 7 follows, of which it is told what became of it.
fn settle_twice<W: Wait>(rt: &W, alloc: Global) -> Result<(Committed, Book<Mark>), NoMemory> {
    let (board, zero, mut one, mut two) = opened(alloc, Book::new(alloc))?;
    put(rt, &board, &mut one, 1, marked(alloc, 1, 0, true)?)?;
    let answer = put(rt, &board, &mut two, 2, marked(alloc, 2, 0, true)?)?;
    Ok((answer, closed(board, zero, one, two)))
}

#[test]
fn an_entry_for_a_settled_key_is_dropped(rt: HostRuntime) -> Result<(), Fail> {
    let (answer, book) = settle_twice(&rt, rt.alloc())?;
    assert!(rt; is_dropped_second(answer));
    assert!(rt; has_one_and_a_dropped_one(&book));
    Ok(())
}

/// Pass 2 finds the model that pass 1 committed, and none where it asks for none.
fn finds_a_model<W: Wait>(rt: &W, alloc: Global) -> Result<bool, NoMemory> {
    let (board, _zero, mut one, mut two) = opened(alloc, Book::new(alloc))?;
    put(rt, &board, &mut one, 1, marked(alloc, 1, 0, false)?)?;
    let found = models(rt, alloc, &board, &mut two, 2, 1)?;
    let none = models(rt, alloc, &board, &mut two, 2, 0)?;
    Ok((found, none) == (1, 0))
}

#[test]
fn a_pass_finds_what_another_committed(rt: HostRuntime) -> Result<(), Fail> {
    assert!(rt; finds_a_model(&rt, rt.alloc())?);
    Ok(())
}

/// A book with an entry of pass 1 and one of pass 2.
fn written(alloc: Global) -> Result<Book<Mark>, NoMemory> {
    let mut book = Book::new(alloc);
    book.commit(&7, empty(alloc, 1, 0))?;
    book.commit(&7, empty(alloc, 2, 0))?;
    Ok(book)
}

/// The opening log stands before what pass 1 commits, which then meets passes that have seen less.
fn goes_on<W: Wait>(rt: &W, alloc: Global) -> Result<Book<Mark>, NoMemory> {
    let (board, zero, mut one, two) = opened(alloc, written(alloc)?)?;
    put(rt, &board, &mut one, 1, empty(alloc, 1, 1))?;
    Ok(closed(board, zero, one, two))
}

/// Commits one entry more, of pass 3, and answers whether it was kept at place 4.
fn goes_on_alone(alloc: Global, book: &mut Book<Mark>) -> Result<bool, NoMemory> {
    let committed = book.commit(&7, empty(alloc, 3, 0))?;
    Ok(committed == Committed::Kept { place: 4 })
}

/// Whether the book has the four entries, in order.
fn has_four(book: &Book<Mark>) -> bool {
    let mut entries = book.entries();
    is_next(&mut entries, 1, 0)
        && is_next(&mut entries, 2, 0)
        && is_next(&mut entries, 1, 1)
        && is_next(&mut entries, 3, 0)
}

#[test]
fn a_book_goes_on_at_a_board_and_after_it(rt: HostRuntime) -> Result<(), Fail> {
    let mut book = goes_on(&rt, rt.alloc())?;
    assert!(rt; goes_on_alone(rt.alloc(), &mut book)?);
    assert!(rt; has_four(&book));
    Ok(())
}

/// The last of 65 passes commits.
fn commits_under_the_last<W: Wait>(rt: &W, alloc: Global) -> Result<Committed, NoMemory> {
    let (board, mut passes) = Board::start(alloc, Book::new(alloc), 65)?;
    let mut pass = last(&board, &mut passes, 64);
    put(rt, &board, &mut pass, 64, empty(alloc, 64, 0))
}

#[test]
fn a_board_gives_65_passes(rt: HostRuntime) -> Result<(), Fail> {
    let committed = commits_under_the_last(&rt, rt.alloc())?;
    assert_eq!(rt; committed, Committed::Kept { place: 1 });
    Ok(())
}

/// The pass of a thread that committed, and the places that it was told.
type Done = (Pass<Mark>, Vec<u64>);

/// Commits so many entries.
fn commit_all<W: Wait>(
    rt: &W,
    alloc: Global,
    board: &Board<Mark>,
    mut pass: Pass<Mark>,
    n: u32,
    count: u64,
) -> Result<Done, NoMemory>
    requires alone { IsAlone board.now n pass }
    ensures alone { IfOk result (λ r. IsAlone board.now n r.0) }
{
    let mut places = Vec::new(alloc);
    for turn in 0..count {
        if let Committed::Kept { place } = put(rt, board, &mut pass, n, empty(alloc, n, turn))? {
            places.push(place)?;
        }
    }
    Ok((pass, places))
}

/// Two threads commit so many entries each.
fn in_two_threads<X: Threads + Wait + Sync>(
    rt: &X,
    alloc: Global,
    board: &Board<Mark>,
    one: Pass<Mark>,
    two: Pass<Mark>,
    count: u64,
) -> Result<(Done, Done), NoMemory>
    requires one { IsAlone board.now 1 one }
    requires two { IsAlone board.now 2 two }
    ensures one { IfOk result (λ r. IsAlone board.now 1 r.0.0) }
    ensures two { IfOk result (λ r. IsAlone board.now 2 r.1.0) }
{
    let (first, second) = thread::join(
        rt,
        || -> Result<Done, NoMemory>
            requires { IsAlone board.now 1 one }
            ensures { IfOk result (λ r. IsAlone board.entry.now 1 r.0) }
        { commit_all(rt, alloc, board, one, 1, count) },
        || -> Result<Done, NoMemory>
            requires { IsAlone board.now 2 two }
            ensures { IfOk result (λ r. IsAlone board.entry.now 2 r.0) }
        { commit_all(rt, alloc, board, two, 2, count) },
    );
    Ok((first?, second?))
}

/// Whether two rising lists are together the numbers from 1 to this one, each once.
fn are_all(first: &[u64], second: &[u64], last: u64) -> bool {
    let mut first = first.iter();
    let mut second = second.iter();
    let mut one = first.next();
    let mut two = second.next();
    for place in 1..=last {
        if one == Some(&place) {
            one = first.next();
        } else if two == Some(&place) {
            two = second.next();
        } else {
            return false;
        }
    }
    one.is_none() && two.is_none()
}

/// Whether the turns of the pass in the book are the first so many, in order.
fn are_in_order(book: &Book<Mark>, pass: u32, turns: u64) -> bool {
    let mut due = 0;
    let mut entries = book.entries();
    for _ in 0..book.count() {
        if let Some(entry) = entries.next() {
            if entry.pass == pass {
                if entry.turn != due {
                    return false;
                }
                due = entry.turn.saturating_add(1);
            }
        }
    }
    due == turns
}

/// Whether what two threads were told and the book are one history, of so many entries of each.
fn are_one(book: &Book<Mark>, places: &[u64], others: &[u64], count: u64) -> bool
    requires few { count ≤ 1000 }
{
    book.count() == 2 * count
        && are_all(places, others, 2 * count)
        && are_in_order(book, 1, count)
        && are_in_order(book, 2, count)
}

/// What two threads commit is one history.
fn is_one_history<X: Threads + Wait + Sync>(
    rt: &X,
    alloc: Global,
    count: u64,
) -> Result<bool, NoMemory>
    requires few { count ≤ 1000 }
{
    let (board, zero, one, two) = opened(alloc, Book::new(alloc))?;
    let (first, second) = in_two_threads(rt, alloc, &board, one, two, count)?;
    let (one, places) = first;
    let (two, others) = second;
    let book = closed(board, zero, one, two);
    Ok(are_one(&book, places.as_slice(), others.as_slice(), count))
}

#[test]
fn what_two_threads_commit_is_one_history(rt: HostRuntime) -> Result<(), Fail> {
    assert!(rt; is_one_history(&rt, rt.alloc(), 1_000)?);
    Ok(())
}

fn shared<T: Sync>(_value: &T) {}

fn sent<T: Send + Drop>(_value: T) {}

/// A board can be shared by threads.
fn boards_are_shared<R: Record + Send>(board: &Board<R>)
where
    R::Key: Send,
    R::Group: Send,
{
    shared(board);
}

/// A pass can be given to a thread.
fn passes_are_sent<R: Record + Send>(pass: Pass<R>)
where
    R::Key: Send,
    R::Group: Send,
{
    sent(pass);
}
