ghost use Rattle.std.specs.Prelude.{◌≤◌};

use super::*;
use std::test::Fail;

fn sized<P: Sizes>(policy: &P, turn: u64, held: u64) -> u64
    requires fit { P.fit policy.now }
    requires some { 1 ≤ held }
{
    policy.size(turn, 0, held)
}

#[test]
fn even_turns_have_one_size(rt: HostRuntime) -> Result<(), Fail> {
    let policy = Policy::new(|turn: u64, held: u64| even(turn, held));
    for (turn, held, size) in [
        (0, 1, 1),
        (7, 1_024, 1_024),
        (8, 1_025, 1_024),
        (9, 904, 904),
    ] {
        assert_eq!(rt; sized(&policy, turn, held), size);
        assert_eq!(rt; policy.size(turn, held), size);
    }
    Ok(())
}

#[test]
fn doubling_turns_stop_to_grow(rt: HostRuntime) -> Result<(), Fail> {
    let policy = Policy::new(|turn: u64, held: u64| doubling(turn, held));
    for (turn, held, size) in [
        (0, 1_000, 1),
        (8, 745, 256),
        (9, 489, 489),
        (20, u64::MAX, 1_048_576),
        (21, u64::MAX, 1_048_576),
        (u64::MAX, 3, 3),
    ] {
        assert_eq!(rt; sized(&policy, turn, held), size);
    }
    Ok(())
}
