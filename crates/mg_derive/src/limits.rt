//! The limits of derivations by their values.
ghost use Rattle.std.specs.Prelude.{◌≡◌, ◌^◌};
ghost use Rattle.mg_numbers.specs.declared.blocks.TheConstants.{MOST_NUMBER};
ghost use Rattle.mg_numbers.specs.declared.texts.TheConstants.{MOST_BASE, MOST_DIGITS};
ghost use Rattle.mg_present.specs.declared.ask.TheConstants.{MOST_GOALS};
ghost use Rattle.mg_derive.specs.declared.walk.TheConstants.{SEARCHED_SYMBOLS};

/// The limits that stand in the contracts of derivations: the greatest number of a text that is tested, the most
/// symbols that an Ask has, how many symbols there is room for in a text, how many goals an Ask has, and one more
/// than the symbols of a text with such a number where the Ask has two symbols or more. The function does nothing;
/// its clauses are the values.
pub fn the_limits()
    ensures number { MOST_NUMBER ≡ 2 ^ 62 }
    ensures base { MOST_BASE ≡ 769 }
    ensures digits { MOST_DIGITS ≡ 4096 }
    ensures goals { MOST_GOALS ≡ 4096 }
    ensures symbols { SEARCHED_SYMBOLS ≡ 63 }
{}
