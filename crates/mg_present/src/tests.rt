ghost use Rattle.std.specs.Prelude.{◌≤◌, IfOk, length};
ghost use Rattle.std.specs.List.{AllByRecursion};

use super::*;
use mg_words::{Letter, Procedure, Word, Words, is_over};
use std::alloc::{AllocError, Global};
use std::cmp::Ordering;
use std::test::Fail;

const A: Letter = Letter {
    generator: 1,
    inverse: false,
};

const B: Letter = Letter {
    generator: 2,
    inverse: false,
};

fn one_word(alloc: Global, letters: &[Letter]) -> Result<Words, NoMemory> {
    let mut words = Words::new(alloc);
    words.push(Word::from_letters(alloc, letters)?)?;
    Ok(words)
}

#[test]
fn relators_are_reduced_words_over_the_generators(rt: HostRuntime) -> Result<(), Fail> {
    for (letters, fitting) in [([A, A], true), ([A, A.inverted()], false), ([A, B], false)] {
        let words = one_word(rt.alloc(), &letters)?;
        assert_eq!(rt; fits(1, &words), fitting);
    }
    Ok(())
}

/// A word of one letter, so many times.
fn copies(alloc: Global, count: usize) -> Result<Words, NoMemory> {
    let mut words = Words::new(alloc);
    for _ in 0..count {
        words.push(Word::from_letters(alloc, &[A])?)?;
    }
    Ok(words)
}

/// One word of so many letters.
fn one_power(alloc: Global, count: usize) -> Result<Words, NoMemory> {
    let mut word = Word::new(alloc);
    for _ in 0..count {
        word.push_all(&[A])?;
    }
    let mut words = Words::new(alloc);
    words.push(word)?;
    Ok(words)
}

#[test]
fn a_presentation_has_at_most_64_generators_and_256_relators(rt: HostRuntime) -> Result<(), Fail> {
    let alloc = rt.alloc();
    let most = copies(alloc, 256)?;
    assert!(rt; fits(1, &most));
    let more = copies(alloc, 257)?;
    assert!(rt; !fits(1, &more));
    assert!(rt; fits(64, &most) && !fits(65, &most));
    Ok(())
}

#[test]
fn a_relator_has_at_most_10_000_letters(rt: HostRuntime) -> Result<(), Fail> {
    let alloc = rt.alloc();
    let longest = one_power(alloc, 10_000)?;
    assert!(rt; fits(1, &longest));
    let longer = one_power(alloc, 10_001)?;
    assert!(rt; !fits(1, &longer));
    Ok(())
}

#[test]
fn presentations_are_compared_by_content(rt: HostRuntime) -> Result<(), Fail> {
    let alloc = rt.alloc();
    let relators = one_word(alloc, &[A, A])?;
    assert!(rt; fits(1, &relators));
    let group = Presentation::new(1, relators);
    let same = group.copy(alloc)?;
    assert_eq!(rt; same.cmp(&group), Ordering::Equal);
    assert!(rt; Presentation::free(alloc, 1) < group);
    assert_eq!(rt; group.relators().len(), 1);
    Ok(())
}

#[test]
fn asks_keep_what_is_asked(rt: HostRuntime) -> Result<(), Fail> {
    let alloc = rt.alloc();
    let group = Presentation::free(alloc, 1);
    let ask = Ask::new(group, Words::new(alloc), Words::new(alloc));
    let same = ask.copy(alloc)?;
    assert!(rt; same == ask);
    assert_eq!(rt; ask.group().generators(), 1);
    assert_eq!(rt; ask.subgroup().len(), 0);
    assert_eq!(rt; ask.goals().len(), 0);
    Ok(())
}

// The map with these images, where each is short; else no memory.
fn map_of(alloc: Global, lists: &[&[Letter]]) -> Result<GenMap, NoMemory>
    ensures { IfOk result (λ map. AllByRecursion (λ image. length image ≤ MOST_MAPPED_LETTERS) map) }
{
    let mut images = Words::new(alloc);
    for list in lists {
        let image = Word::from_letters(alloc, list)?;
        if image.letters().len() > MOST_MAPPED_LETTERS {
            return Err(AllocError);
        }
        images.push(image)?;
    }
    Ok(GenMap::new(images))
}

#[test]
fn images_are_reduced(rt: HostRuntime) -> Result<(), Fail> {
    let alloc = rt.alloc();
    let map = map_of(alloc, &[&[A, B], &[B]])?;
    let word = Word::from_letters(alloc, &[A, B.inverted()])?;
    assert_eq!(rt; map.images().len(), 2);
    assert!(rt; is_over(2, &word));
    assert!(rt; image(alloc, &map, &word)?.letters().len() == 1);
    assert_eq!(rt; image_length(&map, &word), 3);
    Ok(())
}

#[test]
fn procedures_apply_to_some_asks_alone(rt: HostRuntime) -> Result<(), Fail> {
    let alloc = rt.alloc();
    let relators = one_word(alloc, &[A, A])?;
    assert!(rt; fits(1, &relators));
    let order_two = Presentation::new(1, relators);
    let cyclic = Ask::new(order_two, Words::new(alloc), Words::new(alloc));
    let nothing = Presentation::free(alloc, 0);
    let trivial = Ask::new(nothing, Words::new(alloc), Words::new(alloc));
    for (procedure, on_cyclic, on_trivial) in [
        (Procedure::Derive, true, true),
        (Procedure::Act, true, false),
        (Procedure::Residue, true, false),
        (Procedure::Rewrite, true, true),
        (Procedure::Cosets, true, false),
        (Procedure::Nielsen, false, true),
        (Procedure::Recall, true, true),
    ] {
        assert_eq!(rt; applies(procedure, &cyclic), on_cyclic);
        assert_eq!(rt; applies(procedure, &trivial), on_trivial);
    }
    Ok(())
}
