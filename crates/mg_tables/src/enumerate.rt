//! Enumerations of cosets.
ghost use Rattle.std.specs.Prelude.{◌≡◌, ◌↔◌, ℕ, suc, ◌+◌, ◌*◌, ◌<◌, ◌≤◌, ℤ, neg_ℤ, false, IsTrue, List, [], ◌∷◌, length, Some, None, IfOk, IfSome, OnOk};
ghost use Rattle.std.specs.List.{AllByRecursion};
ghost use Rattle.mg_words.specs.Word.{IsOver};
ghost use Rattle.mg_present.specs.Presentation.{IsPresented};
ghost use Rattle.mg_tables.specs.Table.{IsTable, IsComplete};
ghost use Rattle.mg_tables.specs.Enumeration.{Enumerated};
ghost use Rattle.mg_tables.specs.Gaps.{packed};
ghost use Rattle.mg_tables.specs.Looking.{IsCovered};
ghost use Rattle.mg_tables.specs.Enumerating.{AreImages, Reached, IsFullBefore, IsSpot};

use crate::deduce::{Settled, settle};
use crate::images::all_images;
use crate::spot::{Spot, count_rows, find_spot};
use crate::table::{CosetTable, MOST_PLACES};
use mg_present::Presentation;
use mg_words::{NoMemory, Words};
use std::alloc::Global;
use std::marker::Model;

/// The most entries of an enumeration's table.
pub const MOST_ENTRIES: u32 = 4_000_000;

/// An enumeration of the cosets of a subgroup, whose table is stable.
#[derive(Debug, Drop)]
pub struct CosetEnumeration {
    group: Presentation,
    subgroup: Words,
    table: CosetTable,
    units: u64,
    rows: u32,
    spot: Option<Spot>,
}

impl Model for CosetEnumeration {
    ghost use Rattle.mg_tables.specs.Gaps.{packed};
    ghost use Rattle.mg_tables.specs.Enumerating.{Enumeration, IsEnumeration};

    ghost Value = { Enumeration };

    ghost view = { λ e. record { group = e.group; subgroup = e.subgroup; units = e.units; table = packed e.table.places } };

    ghost invariant = { λ e. IsEnumeration e.group e.subgroup e.units e.table e.rows e.spot };
}

// How many rows a table has, which had so many before.
fn rows_now(settled: &Settled, rows: u32) -> u32
    requires { settled.now.joined ≡ false → rows ≡ length (packed settled.now.table.places) }
    ensures { result ≡ length (packed settled.now.table.places) }
{
    if settled.joined {
        return count_rows(&settled.table);
    }
    rows
}

// The enumeration of a table in which what is forced through the rows of a list isn't done yet.
fn finish(
    alloc: Global,
    group: Presentation,
    subgroup: Words,
    table: CosetTable,
    list: Vec<u32>,
    units: u64,
    rows: u32,
    from: u32,
) -> Result<CosetEnumeration, NoMemory>
    requires some { 1 ≤ group.generators }
    requires over { AllByRecursion (IsOver group.generators) subgroup }
    requires generators { table.generators ≡ group.generators }
    requires covered { IsCovered group.relators table.places list.items }
    requires reached { Reached group subgroup units (packed table.places) }
    requires rows { rows ≡ length (packed table.places) }
    requires full { IsFullBefore group.generators table.places from }
    ensures group { IfOk result (λ e. e.group ≡ group) }
    ensures subgroup { IfOk result (λ e. e.subgroup ≡ subgroup) }
    ensures units { IfOk result (λ e. e.units ≡ units) }
{
    let _ = group.generators();
    let mut list = list;
    let settled = settle(alloc, &group, &subgroup, table, &mut list)?;
    let rows = rows_now(&settled, rows);
    let spot = find_spot(&settled.table, from);
    Ok(CosetEnumeration {
        group,
        subgroup,
        table: settled.table,
        units,
        rows,
        spot,
    })
}

// Makes a row at the first empty entry, and does what is then forced.
fn grow(
    alloc: Global,
    group: Presentation,
    subgroup: Words,
    table: CosetTable,
    units: u64,
    rows: u32,
    spot: Spot,
) -> Result<CosetEnumeration, NoMemory>
    requires some { 1 ≤ group.generators }
    requires over { AllByRecursion (IsOver group.generators) subgroup }
    requires generators { table.generators ≡ group.generators }
    requires enumerated { Enumerated group subgroup units (packed table.places) }
    requires rows { rows ≡ length (packed table.places) }
    requires spot { IsSpot group.generators table.places (Some spot) }
    ensures group { IfOk result (λ e. e.group ≡ group) }
    ensures subgroup { IfOk result (λ e. e.subgroup ≡ subgroup) }
    ensures units { IfOk result (λ e. e.units ≡ units + 1) }
{
    let _ = group.generators();
    let _ = table.generators();
    if table.places() >= MOST_PLACES || units == u64::MAX {
        return Err(std::alloc::AllocError);
    }
    let mut table = table;
    let row = table.add_row(spot.row, spot.letter)?;
    let _ = table.generators();
    let mut list = Vec::new(alloc);
    list.push(row)?;
    list.push(spot.row)?;
    finish(
        alloc,
        group,
        subgroup,
        table,
        list,
        units + 1,
        rows + 1,
        spot.row,
    )
}

impl CosetEnumeration {
    /// The enumeration in which no row was made: of the table of one row, what is forced there is done.
    pub fn start(
        alloc: Global,
        group: Presentation,
        subgroup: Words,
    ) -> Result<CosetEnumeration, NoMemory>
        requires some { 1 ≤ group.generators }
        requires over { AllByRecursion (IsOver group.generators) subgroup }
        ensures group { IfOk result (λ e. e.group ≡ group) }
        ensures subgroup { IfOk result (λ e. e.subgroup ≡ subgroup) }
        ensures units { IfOk result (λ e. e.units ≡ 0) }
    {
        let table = CosetTable::new(alloc, group.generators())?;
        let _ = table.places();
        let mut list = Vec::new(alloc);
        list.push(0)?;
        finish(alloc, group, subgroup, table, list, 0, 1, 0)
    }

    /// The group.
    pub fn group(&self) -> &Presentation
        ensures value { result.now ≡ self.now.group }
        ensures presented { IsPresented self.now.group }
        ensures some { 1 ≤ self.now.group.generators }
    {
        &self.group
    }

    /// How many rows were made.
    pub fn units(&self) -> u64
        ensures value { result ≡ self.now.units }
        ensures enumerated { Enumerated self.now.group self.now.subgroup self.now.units
            self.now.table }
        ensures table { IsTable self.now.group.generators self.now.table }
        ensures over { AllByRecursion (IsOver self.now.group.generators) self.now.subgroup }
    {
        let _ = self.table.generators();
        self.units
    }

    /// How many rows the table has.
    pub fn rows(&self) -> u32
        ensures value { result ≡ length self.now.table }
        ensures some { 1 ≤ result }
    {
        let _ = self.table.places();
        self.rows
    }

    /// Whether no entry is empty.
    pub fn is_complete(&self) -> bool
        ensures { IsTrue result ↔ IsComplete self.now.group.generators self.now.table }
    {
        self.spot.is_none()
    }

    /// Whether one more row keeps the entries within the limit.
    pub fn fits_one_more(&self) -> bool
        ensures { IsTrue result ↔
            ((length self.now.table + 1) * (2 * self.now.group.generators) ≤ MOST_ENTRIES) }
    {
        (self.rows as u64 + 1) * (2 * self.group.generators() as u64) <= MOST_ENTRIES as u64
    }

    /// Makes a row at the first empty entry, and does what is then forced. Without memory the enumeration is gone.
    pub fn make_row(self, alloc: Global) -> Result<CosetEnumeration, NoMemory>
        requires open { IsComplete self.group.generators self.table → ⊥ }
        requires fits { (length self.table + 1) * (2 * self.group.generators) ≤ MOST_ENTRIES }
        ensures units { IfOk result (λ e. e.units ≡ self.units + 1) }
        ensures group { IfOk result (λ e. e.group ≡ self.group) }
        ensures subgroup { IfOk result (λ e. e.subgroup ≡ self.subgroup) }
    {
        let CosetEnumeration {
            group,
            subgroup,
            table,
            units,
            rows,
            spot,
        } = self;
        let Some(spot) = spot else { unreachable!() };
        grow(alloc, group, subgroup, table, units, rows, spot)
    }

    /// The rows to which the generators lead, generator after generator.
    pub fn images(&self, alloc: Global) -> Result<Vec<u32>, NoMemory>
        requires { IsComplete self.now.group.generators self.now.table }
        ensures { IfOk result (λ images.
            AreImages self.now.group.generators self.now.table images.items) }
    {
        all_images(alloc, &self.table)
    }
}
