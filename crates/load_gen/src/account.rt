//! The accounts of the bank.

ghost use Rattle.std.specs.Prelude.{◌<◌, Some};
ghost use Rattle.load_gen.specs.Accounts.{account_id};

use std::fmt;

/// How many accounts there are.
pub const ACCOUNTS: u64 = 64;

/// An account of the bank, which is displayed as its id: `a` and its number in two digits.
#[derive(Clone, Copy)]
pub struct Account {
    /// Its number, from 0.
    pub number: u64,
    ghost two_digits: { number < 100 },
}

impl fmt::Display for Account {
    ghost output = { λ account. Some (account_id account.number) };

    fn fmt<W: fmt::Write>(&self, f: &mut fmt::Formatter<W>) -> fmt::Result {
        write!(f, "a{:02}", self.number)
    }
}
