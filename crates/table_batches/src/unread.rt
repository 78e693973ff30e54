//! The keys that a BatchGetItem did not read.

ghost use Rattle.std.specs.Prelude.{◌≡◌, ◌<◌, [], ◌++◌, drop, length, IfOk, OnOk};
ghost use Rattle.table_model.specs.Batches.{unread, unread_in};

use attr_value::Item;
use base_types::Seq;
use std::alloc::{AllocError as NoMemory, Global};
use table_request::TableKeys;

/// The keys behind the first `read`, moved out of the others.
fn keys_behind(keys: Seq<Item>, read: usize) -> Result<Seq<Item>, NoMemory>
    requires { read < length keys }
    ensures { IfOk result (λ behind. behind ≡ drop read keys) }
{
    let mut keys = Vec::from(keys);
    let behind = keys.split_off(read)?;
    Ok(Seq::from(behind))
}

/// The same request for the keys behind the first `read`.
fn request_behind(asked: TableKeys, read: usize) -> Result<TableKeys, NoMemory>
    requires { read < length asked.keys }
    ensures { IfOk result (λ behind. behind ≡ record asked { keys = drop read asked.keys }) }
{
    let TableKeys {
        table,
        keys,
        projection,
        consistent,
        expression,
        names,
        attributes,
    } = asked;
    Ok(TableKeys {
        table,
        keys: keys_behind(keys, read)?,
        projection,
        consistent,
        expression,
        names,
        attributes,
    })
}

/// Adds what was not read of a table, if anything was not.
fn push_unread(rest: &mut Seq<TableKeys>, asked: TableKeys, read: usize) -> Result<(), NoMemory>
    ensures { OnOk result (rest.new ≡ rest.old ++ unread_in asked (drop read asked.keys) []) }
{
    if read >= asked.keys.len() {
        drop(asked);
        return Ok(());
    }
    rest.push(request_behind(asked, read)?)?;
    Ok(())
}

/// The requests for the keys behind the first `read` of all. They are moved out of the requests.
pub(crate) fn unread(
    alloc: Global,
    requests: Seq<TableKeys>,
    read: usize,
) -> Result<Seq<TableKeys>, NoMemory>
    ensures { IfOk result (λ rest. rest ≡ unread read requests) }
{
    let mut rest = Seq::new(alloc);
    let mut left = read;
    for asked in Vec::from(requests) {
        let count = asked.keys.len();
        push_unread(&mut rest, asked, left)?;
        left = left.saturating_sub(count);
    }
    Ok(rest)
}
