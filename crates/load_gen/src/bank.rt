//! The requests that make the bank.

ghost use Rattle.std.specs.Prelude.{◌≡◌, ◌≤◌, IfOk};
ghost use Rattle.load_gen.specs.Bodies.{table as table_of, opening as opening_of, setup_body};

use crate::account::Account;
use base_types::Bytes;
use std::alloc::{AllocError as NoMemory, Global};

/// What makes the table and its index.
const TABLE: &str = "{\"AttributeDefinitions\":[{\"AttributeName\":\"id\",\"AttributeType\":\"S\"},\
    {\"AttributeName\":\"branch\",\"AttributeType\":\"S\"}],\
    \"TableName\":\"Bank\",\"KeySchema\":[{\"AttributeName\":\"id\",\"KeyType\":\"HASH\"}],\
    \"GlobalSecondaryIndexes\":[{\"IndexName\":\"by_branch\",\
    \"KeySchema\":[{\"AttributeName\":\"branch\",\"KeyType\":\"HASH\"}],\
    \"Projection\":{\"ProjectionType\":\"ALL\"}}],\"BillingMode\":\"PAY_PER_REQUEST\"}";

/// The body of the request at this place, from 0 to 64, of those that make the bank.
///
/// At 0 it is CreateTable of `Bank`, on demand, with the partition key `id` and the global index `by_branch`, which has the
/// partition key `branch` and whole items. At 1 + i it is PutItem of the account i: its id is `a` and i in two digits, its
/// branch `b` and i modulo 8, its balance 1000 (API Reference: CreateTable, PutItem).
///
/// [`NoMemory`] comes where memory was refused.
pub fn setup(alloc: Global, place: u32) -> Result<Bytes, NoMemory>
    requires { place ≤ 64 }
    ensures { IfOk result (λ body. body ≡ setup_body place) }
{
    match u64::from(place).checked_sub(1) {
        None => table(alloc),
        Some(number) => opening(alloc, Account { number }),
    }
}

/// The body that makes the table.
#[tactic(auto, unfolding(crate::specs::Bodies::table))]
fn table(alloc: Global) -> Result<Bytes, NoMemory>
    ensures { IfOk result (λ body. body ≡ table_of) }
{
    Bytes::copied(alloc, TABLE.as_bytes())
}

/// The body that makes an account.
#[tactic(auto, unfolding(crate::specs::Bodies::opening))]
fn opening(alloc: Global, account: Account) -> Result<Bytes, NoMemory>
    ensures { IfOk result (λ body. body ≡ opening_of account.number) }
{
    let branch = account.number % 8;
    let body = format!(in alloc;
        r#"{{"TableName":"Bank","Item":{{"id":{{"S":"{account}"}},"branch":{{"S":"b{branch}"}},"balance":{{"N":"1000"}}}}}}"#
    )?;
    Ok(Bytes::from(body.into_bytes()))
}
