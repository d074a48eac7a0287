ghost use Rattle.std.specs.Prelude.{◌≡◌, ℕ, ◌+◌, ◌≤◌, ◌<◌, List, length, IfOk, OnOk, IfErr, OnErr};
ghost use Rattle.mg_ledger.specs.Accounts.{HasBalance, Balanced};
ghost use Rattle.mg_ledger.specs.Ledgers.{LedgerState, no_cells, account_at, IsLedger, Call, Step, Run};
ghost use Rattle.mg_ledger.specs.Ledgers.Call.{AddCell, Fund, Grant, Spend, GiveBack};

use std::alloc::{AllocError, Global};
use std::marker::Model;

/// Want of memory.
pub type NoMemory = AllocError;

/// The most units that a ledger can be funded with in all: 2^62.
pub const MOST_FUNDED: u64 = 4_611_686_018_427_387_904;

/// The most units that a cell was granted before, where it is granted more: 2^120.
pub const MOST_GRANTED: u128 = 1_329_227_995_784_915_872_903_807_060_280_344_576;

/// The units of one cell.
#[derive(Clone, Copy, Debug, PartialEq, Eq)]
pub struct Account {
    /// All that were ever granted to it.
    pub granted: u128,
    /// Those that were used up.
    pub spent: u64,
    /// Those that can still be spent.
    pub held: u64,
    /// Those that went back to the purse.
    pub returned: u128,
}

/// The units weren't added, since the ledger would be funded with more than `MOST_FUNDED`.
#[derive(Clone, Copy, Debug, PartialEq, Eq)]
pub struct FundRefused {
    /// The units that the ledger is funded with.
    pub funded: u64,
}

/// The units weren't granted, since the purse has fewer.
#[derive(Clone, Copy, Debug, PartialEq, Eq)]
pub struct GrantRefused {
    /// The units in the purse.
    pub purse: u64,
}

/// A purse of units and the accounts of cells, which are numbered from 0.
#[derive(Debug, Drop)]
pub struct Ledger {
    funded: u64,
    purse: u64,
    cells: Vec<Account>,
}

impl Model for Ledger {
    ghost use Rattle.mg_ledger.specs.Ledgers.{LedgerState, IsLedger};

    ghost Value = { LedgerState };

    ghost view = { λ l. record { funded = l.funded; purse = l.purse; cells = l.cells.items } };

    ghost invariant = { λ l. IsLedger (record { funded = l.funded; purse = l.purse; cells = l.cells.items }) };
}

impl Ledger {
    /// A ledger with no units and no cells, which takes no memory.
    pub fn new(alloc: Global) -> Ledger
        ensures { result ≡ no_cells }
    {
        Ledger {
            funded: 0,
            purse: 0,
            cells: Vec::new(alloc),
        }
    }

    /// Opens the account of a new cell, with no units, and answers the cell's number.
    pub fn add_cell(&mut self) -> Result<u32, NoMemory>
        requires { length self.old.cells < u32.MAX }
        ensures step { OnOk result (Step self.old AddCell self.new) }
        ensures number { IfOk result (λ cell. cell ≡ length self.old.cells) }
        ensures err { OnErr result (self.new ≡ self.old) }
    {
        let cell = self.cells.len() as u32;
        self.cells.push(Account {
            granted: 0,
            spent: 0,
            held: 0,
            returned: 0,
        })?;
        Ok(cell)
    }

    /// Adds units to the purse, unless the ledger would be funded with more than `MOST_FUNDED`.
    pub fn fund(&mut self, n: u64) -> Result<(), FundRefused>
        ensures step { Step self.old (Fund n) self.new }
        ensures ok { OnOk result (self.old.funded + n ≤ MOST_FUNDED) }
        ensures refused { IfErr result (λ e. (MOST_FUNDED < self.old.funded + n) ×
            (e.funded ≡ self.old.funded)) }
        ensures err { OnErr result (self.new ≡ self.old) }
    {
        if n > MOST_FUNDED - self.funded {
            return Err(FundRefused {
                funded: self.funded,
            });
        }
        self.funded += n;
        self.purse += n;
        Ok(())
    }

    /// Moves units from the purse to a cell that holds them, unless the purse has fewer.
    pub fn grant(&mut self, cell: u32, n: u64) -> Result<(), GrantRefused>
        requires there { cell < length self.old.cells }
        requires counted { (account_at self.old cell).granted ≤ MOST_GRANTED }
        ensures step { Step self.old (Grant cell n) self.new }
        ensures ok { OnOk result (n ≤ self.old.purse) }
        ensures refused { IfErr result (λ e. (self.old.purse < n) × (e.purse ≡ self.old.purse)) }
        ensures err { OnErr result (self.new ≡ self.old) }
    {
        if n > self.purse {
            return Err(GrantRefused { purse: self.purse });
        }
        self.purse -= n;
        let account = &mut self.cells[cell as usize];
        account.granted += u128::from(n);
        account.held += n;
        Ok(())
    }

    /// Spends units that the cell holds.
    pub fn spend(&mut self, cell: u32, n: u64)
        requires there { cell < length self.old.cells }
        requires held { n ≤ (account_at self.old cell).held }
        ensures { Step self.old (Spend cell n) self.new }
    {
        let account = &mut self.cells[cell as usize];
        account.spent += n;
        account.held -= n;
    }

    /// Moves all the units that the cell holds back to the purse, and answers how many.
    pub fn give_back(&mut self, cell: u32) -> u64
        requires { cell < length self.old.cells }
        ensures step { Step self.old (GiveBack cell) self.new }
        ensures all { result ≡ (account_at self.old cell).held }
    {
        let account = &mut self.cells[cell as usize];
        let held = account.held;
        // All that is returned was granted, so that it fits.
        let _granted = account.granted;
        account.held = 0;
        account.returned += u128::from(held);
        self.purse += held;
        held
    }

    /// The account of a cell.
    pub fn account(&self, cell: u32) -> Account
        requires { cell < length self.now.cells }
        ensures value { result ≡ account_at self.now cell }
        ensures balanced { Balanced result }
        ensures kept { IsLedger self.now }
    {
        self.cells[cell as usize]
    }

    /// The units in the purse.
    pub fn purse(&self) -> u64
        ensures value { result ≡ self.now.purse }
        ensures kept { IsLedger self.now }
    {
        self.purse
    }

    /// All the units that the ledger was ever funded with.
    pub fn funded(&self) -> u64
        ensures value { result ≡ self.now.funded }
        ensures kept { IsLedger self.now }
    {
        self.funded
    }
}

/// Whatever calls come, each account is balanced after them, and every unit funded is in the
/// purse, held or spent.
pub fn every_run_balances()
    ensures { (calls : List Call) (end : LedgerState) → Run no_cells calls end →
        HasBalance end.funded end.purse end.cells }
{}

#[cfg(test)]
mod tests {
    use super::*;
    use std::test::Fail;

    #[test]
    fn units_move_and_none_is_lost(rt: HostRuntime) -> Result<(), Fail> {
        let mut ledger = Ledger::new(rt.alloc());
        assert_eq!(rt; ledger.fund(200), Ok(()));
        assert_eq!(rt; ledger.fund(MOST_FUNDED), Err(FundRefused { funded: 200 }));
        assert_eq!(rt; ledger.add_cell()?, 0);
        assert_eq!(rt; ledger.grant(0, 201), Err(GrantRefused { purse: 200 }));
        assert_eq!(rt; ledger.grant(0, 200), Ok(()));
        ledger.spend(0, 111);
        assert_eq!(rt; ledger.give_back(0), 89);
        let account = Account {
            granted: 200,
            spent: 111,
            held: 0,
            returned: 89,
        };
        assert_eq!(rt; ledger.account(0), account);
        assert_eq!(rt; ledger.purse(), 89);
        assert_eq!(rt; ledger.funded(), 200);
        every_run_balances();
        Ok(())
    }
}
