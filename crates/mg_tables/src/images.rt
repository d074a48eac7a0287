//! The rows to which the generators lead in a table without an empty entry.
ghost use Rattle.std.specs.Prelude.{◌≡◌, ℕ, suc, ◌+◌, ◌≤◌, ◌<◌, pos, List, length, Some, IfOk, OnOk};
ghost use Rattle.mg_words.specs.Letter.{IsLetterOf};
ghost use Rattle.mg_tables.specs.Table.{column, IsComplete};
ghost use Rattle.mg_tables.specs.Gaps.{Stands, number, packed, cell_at};
ghost use Rattle.mg_tables.specs.Enumerating.{AreNumbers, Imaging, AreImages};

use crate::table::CosetTable;
use mg_present::MOST_GENERATORS;
use mg_words::{Letter, NoMemory};
use std::alloc::Global;

// The numbers of the places of a table.
fn number_places(alloc: Global, table: &CosetTable) -> Result<Vec<u32>, NoMemory>
    ensures { IfOk result (λ numbers. AreNumbers table.now.places numbers.items) }
{
    let mut numbers = Vec::new(alloc);
    let mut rows = 0;
    for place in 0..table.places() {
        numbers.push(rows)?;
        if table.stands(place) {
            rows += 1;
        }
    }
    Ok(numbers)
}

// The letter of the generator at a place, from 0.
fn generator_at(place: u32) -> Letter
    requires { place < MOST_GENERATORS }
    ensures { result ≡ pos (suc place) }
{
    Letter {
        generator: place as u8 + 1,
        inverse: false,
    }
}

// The number of the row to which a letter leads.
fn image_of(table: &CosetTable, numbers: &[u32], letter: Letter, place: u32) -> u32
    requires complete { IsComplete table.now.generators (packed table.now.places) }
    requires numbers { AreNumbers table.now.places numbers.now }
    requires letter { IsLetterOf table.now.generators letter }
    requires place { Stands table.now.places place }
    ensures { (d : ℕ) × (cell_at table.now.places place (column letter) ≡ Some d) ×
        (result ≡ number table.now.places d) }
{
    match table.entry(place, letter) {
        Some(to) => numbers[to as usize],
        None => unreachable!(),
    }
}

// Appends the row to which a letter leads, where a row stands.
fn push_image(
    table: &CosetTable,
    numbers: &[u32],
    letter: Letter,
    place: u32,
    images: &mut Vec<u32>,
) -> Result<(), NoMemory>
    requires complete { IsComplete table.now.generators (packed table.now.places) }
    requires numbers { AreNumbers table.now.places numbers.now }
    requires letter { IsLetterOf table.now.generators letter }
    ensures { OnOk result ((before : List ℕ) →
        Imaging table.now.places letter before images.old.items place →
        Imaging table.now.places letter before images.new.items (place + 1)) }
{
    if table.stands(place) {
        images.push(image_of(table, numbers, letter, place))?;
        return Ok(());
    }
    Ok(())
}

// Appends the rows to which a letter leads.
fn push_images(
    table: &CosetTable,
    numbers: &[u32],
    letter: Letter,
    images: &mut Vec<u32>,
) -> Result<(), NoMemory>
    requires complete { IsComplete table.now.generators (packed table.now.places) }
    requires numbers { AreNumbers table.now.places numbers.now }
    requires letter { IsLetterOf table.now.generators letter }
    ensures { OnOk result (Imaging table.now.places letter images.old.items images.new.items
        (length table.now.places)) }
{
    for place in 0..table.places() {
        push_image(table, numbers, letter, place, images)?;
    }
    Ok(())
}

// The rows to which the generators lead, generator after generator.
pub(crate) fn all_images(alloc: Global, table: &CosetTable) -> Result<Vec<u32>, NoMemory>
    requires { IsComplete table.now.generators (packed table.now.places) }
    ensures { IfOk result (λ images.
        AreImages table.now.generators (packed table.now.places) images.items) }
{
    let numbers = number_places(alloc, table)?;
    let mut images = Vec::new(alloc);
    for place in 0..table.generators() {
        push_images(table, &numbers, generator_at(place), &mut images)?;
    }
    Ok(images)
}
