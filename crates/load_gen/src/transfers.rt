//! The requests that carry money from account to account.

ghost use Rattle.std.specs.Prelude.{◌≡◌, ◌≤◌, ◌<◌, pos, neg_ℤ, IfOk, Some};
ghost use Rattle.load_gen.specs.Accounts.{from_account, to_account, amount};
ghost use Rattle.load_gen.specs.Bodies.{addition, transfer_body};

use crate::account::{ACCOUNTS, Account};
use base_types::Bytes;
use std::alloc::{AllocError as NoMemory, Global};
use std::fmt;

/// An action of a transaction, displayed as JSON: it adds to the balance of an account.
#[derive(Clone, Copy)]
struct Addition {
    account: Account,
    change: i64,
}

impl fmt::Display for Addition {
    ghost output = { λ action. Some (addition action.account.number action.change) };

    #[tactic(auto, unfolding(crate::specs::Bodies::addition))]
    fn fmt<W: fmt::Write>(&self, f: &mut fmt::Formatter<W>) -> fmt::Result {
        write!(
            f,
            "{{\"Update\":{{\"TableName\":\"Bank\",\"Key\":{{\"id\":{{\"S\":\"{}\"}}}},\
            \"UpdateExpression\":\"ADD balance :d\",\"ExpressionAttributeValues\":{{\":d\":{{\"N\":\"{}\"}}}}}}}}",
            self.account, self.change
        )
    }
}

/// What the transfer at a place does: it takes from one account, and gives to another.
fn actions(start: u64, place: u64) -> (Addition, Addition)
    requires start { start ≤ 9999999 }
    requires place { place < 100000 }
    ensures from { result.0.account.number ≡ from_account start place }
    ensures taken { result.0.change ≡ neg_ℤ (pos (amount place)) }
    ensures to { result.1.account.number ≡ to_account start place }
    ensures given { result.1.change ≡ pos (amount place) }
{
    let from = (start + 7 * place) % ACCOUNTS;
    let to = (from + 1 + 2 * (place % 8)) % ACCOUNTS;
    let amount = 1 + (place % 9) as i64;
    (
        Addition {
            account: Account { number: from },
            change: -amount,
        },
        Addition {
            account: Account { number: to },
            change: amount,
        },
    )
}

/// The body of the transfer at this place, from 0 to 99,999, of a load that starts with this number, at most 9,999,999.
///
/// It is TransactWriteItems of two updates, the first of which takes from the balance of one account what the second adds to
/// that of another. The client's token is `t` and the place in decimal (API Reference: TransactWriteItems).
///
/// [`NoMemory`] comes where memory was refused.
pub fn transfer(alloc: Global, start: u64, place: u64) -> Result<Bytes, NoMemory>
    requires start { start ≤ 9999999 }
    requires place { place < 100000 }
    ensures { IfOk result (λ body. body ≡ transfer_body start place) }
{
    let (taken, given) = actions(start, place);
    let body = format!(in alloc;
        r#"{{"ClientRequestToken":"t{place}","TransactItems":[{taken},{given}]}}"#
    )?;
    Ok(Bytes::from(body.into_bytes()))
}
