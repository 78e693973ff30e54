//! A request of any operation.

use crate::batches::{BatchGet, BatchWrite};
use crate::items::{DeleteItem, GetItem, PutItem, UpdateItem};
use crate::pages::{Query, Scan};
use crate::tables::{CreateTable, DeleteTable, DescribeTable, ListTables, UpdateTable};
use crate::time_to_live::{DescribeTimeToLive, UpdateTimeToLive};
use crate::transactions::{TransactGet, TransactWrite};

/// What is asked of the database (API Reference: Actions).
#[derive(Drop)]
pub enum Request {
    CreateTable(CreateTable),
    DeleteTable(DeleteTable),
    UpdateTable(UpdateTable),
    DescribeTable(DescribeTable),
    ListTables(ListTables),
    UpdateTimeToLive(UpdateTimeToLive),
    DescribeTimeToLive(DescribeTimeToLive),
    PutItem(PutItem),
    GetItem(GetItem),
    UpdateItem(UpdateItem),
    DeleteItem(DeleteItem),
    BatchGet(BatchGet),
    BatchWrite(BatchWrite),
    Query(Query),
    Scan(Scan),
    TransactWrite(TransactWrite),
    TransactGet(TransactGet),
}
