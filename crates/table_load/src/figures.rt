//! What rows of accounts come to.

ghost use Rattle.std.specs.Prelude.{◌≡◌, ◌+◌, ◌+ℤ◌, ◌*ℤ◌, IfOk, IfSome, codes};
ghost use Rattle.table_load.specs.Figures.{AreFigures, IsAccount, IsNumber, IsWholeTable, unit};

use attr_value::{Item, SharedItem, Value};
use base_types::Text;
use number38::{Number, from_u64};
use std::alloc::{AllocError as NoMemory, Global};
use table_model::Reply;

/// How many rows there are, the sum of their balances, and the same of each balance times the number of its account.
#[derive(Clone, Copy)]
pub struct Figures {
    pub rows: u64,
    pub sum: i64,
    pub weighted: i64,
}

/// The names of the attributes that are read.
#[derive(Drop)]
pub(crate) struct Names {
    id: Text,
    balance: Text,
}

impl Names {
    pub(crate) fn new(alloc: Global) -> Result<Names, NoMemory>
        ensures { IfOk result (λ names. (names.id ≡ codes "id") × (names.balance ≡ codes "balance")) }
    {
        let id = Text::copied(alloc, "id")?;
        let balance = Text::copied(alloc, "balance")?;
        Ok(Names { id, balance })
    }
}

/// The greatest whole number below 2^32 that is not above a number, where there is one.
fn whole_below(limit: &Number) -> u64 {
    let mut found: u64 = 0;
    for place in 0..32u32 {
        let next = found | (1 << (31 - place));
        if !(*limit < from_u64(next)) {
            found = next;
        }
    }
    found
}

/// The whole number that a number is, where it is one below 2^32. No balance of a load is below 0.
fn whole(number: &Number) -> Option<i64>
    ensures { IfSome result (λ whole. number.now ≡ whole *ℤ unit) }
{
    let found = whole_below(number);
    if *number == from_u64(found) {
        return i64::try_from(found).ok();
    }
    None
}

/// The number of the account with an id.
fn number_of(id: &[u8]) -> Option<i64>
    ensures { IfSome result (IsNumber id.now) }
{
    let [b'a', tens, units] = id else {
        return None;
    };
    if !tens.is_ascii_digit() || !units.is_ascii_digit() {
        return None;
    }
    Some(10 * i64::from(*tens - b'0') + i64::from(*units - b'0'))
}

/// The number and the balance of the account that an item is.
fn account_of(item: &Item, names: &Names) -> Option<(i64, i64)>
    requires id { names.now.id ≡ codes "id" }
    requires balance { names.now.balance ≡ codes "balance" }
    ensures { IfSome result (λ account. IsAccount item.now account.0 account.1) }
{
    let Some(Value::S(id)) = item.attribute(&names.id) else {
        return None;
    };
    let Some(Value::N(balance)) = item.attribute(&names.balance) else {
        return None;
    };
    Some((number_of(id.as_str().as_bytes())?, whole(balance)?))
}

impl Figures {
    /// One row more.
    fn with(self, number: i64, balance: i64) -> Option<Figures>
        ensures { IfSome result (λ more. more ≡ record { rows = self.rows + 1; sum = self.sum +ℤ balance; weighted = self.weighted +ℤ number *ℤ balance }) }
    {
        Some(Figures {
            rows: self.rows.checked_add(1)?,
            sum: self.sum.checked_add(balance)?,
            weighted: self.weighted.checked_add(number.checked_mul(balance)?)?,
        })
    }
}

/// What rows come to. None where one of them is no account, or a sum is no `i64`.
fn figures_of_rows(rows: &[SharedItem], names: &Names) -> Option<Figures>
    requires id { names.now.id ≡ codes "id" }
    requires balance { names.now.balance ≡ codes "balance" }
    ensures { IfSome result (AreFigures rows.now) }
{
    let Some((row, rest)) = rows.split_first() else {
        return Some(Figures {
            rows: 0,
            sum: 0,
            weighted: 0,
        });
    };
    let figures = figures_of_rows(rest, names)?;
    let (number, balance) = account_of(row.item(), names)?;
    figures.with(number, balance)
}

/// What the rows of a page come to. None where it is not all of its table.
pub(crate) fn figures_of(reply: &Reply, names: &Names) -> Option<Figures>
    requires id { names.now.id ≡ codes "id" }
    requires balance { names.now.balance ≡ codes "balance" }
    ensures { IfSome result (IsWholeTable reply.now) }
{
    let Reply::Page { page, consumed: _ } = reply else {
        return None;
    };
    if page.last.is_some() {
        return None;
    }
    let Some(rows) = &page.items else {
        return None;
    };
    figures_of_rows(rows.as_slice(), names)
}
