//! A search that finds at its third unit.
ghost use Rattle.std.specs.Prelude.{◌≡◌, []};

use super::*;
use mg_core::{Facts, Records};
use mg_turn::{Searcher, TurnEnd};
use std::alloc::Global;
use std::test::Fail;

/// No models.
fn none(alloc: Global) -> Facts<Mark>
    ensures { result.records ≡ [] }
{
    Facts {
        from: 0,
        upto: 0,
        records: Records::new(alloc),
    }
}

#[test]
fn finds_at_the_third_unit(rt: HostRuntime) -> Result<(), Fail> {
    let alloc = rt.alloc();
    let mut search = Finder {
        key: 7,
        group: 9,
        spent: 0,
    };
    let mut ignorant = Knows { mark: None };
    assert_eq!(rt;
        (*search.key(), *search.group(), search.wants(2)),
        (7, 9, 0)
    );
    let outcome = search.turn(alloc, 2, none(alloc), &mut ignorant)?;
    assert!(rt; outcome.spent == 2 && matches!(outcome.end, TurnEnd::More));
    let mut knowing = Knows {
        mark: Some(Mark {
            settling: true,
            number: 7,
        }),
    };
    assert!(rt; search.spent < 3);
    let outcome = search.turn(alloc, 5, none(alloc), &mut knowing)?;
    assert!(rt; outcome.spent == 0 && matches!(outcome.end, TurnEnd::Stopped(_)));
    assert!(rt; search.spent < 3);
    let outcome = search.turn(alloc, 5, none(alloc), &mut ignorant)?;
    assert!(rt; outcome.spent == 1 && matches!(outcome.end, TurnEnd::Found(_)));
    Ok(())
}
