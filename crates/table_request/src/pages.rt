//! Requests on the rows of a table or of an index, page by page.

use attr_value::{Item, Value};
use base_types::{Seq, Text};
use expr_words::{Condition, Paths};

/// Which attributes a page shows (API Reference: Query and Scan, Select).
#[derive(Clone, Copy)]
pub enum Select {
    AllAttributes,
    AllProjectedAttributes,
    SpecificAttributes,
    /// None: the rows are counted.
    Count,
}

/// What Query and Scan have in common.
#[derive(Drop)]
pub struct PageRequest {
    pub table: Text,
    /// The index whose rows are read, and not the table's.
    pub index: Option<Text>,
    /// What has to be true of a row that is shown.
    pub filter: Option<Condition>,
    /// What is shown of a row.
    pub projection: Option<Paths>,
    /// The values that the conditions name, by their places.
    pub values: Seq<Value>,
    /// Which attributes are shown, where it is stated.
    pub select: Option<Select>,
    /// The most rows to look at, at least 1.
    pub limit: Option<u64>,
    /// The key of the row after which the page begins (ExclusiveStartKey).
    pub start: Option<Item>,
    pub consistent: bool,
    /// Whether the capacity that was used is told (ReturnConsumedCapacity, TOTAL or INDEXES).
    pub capacity: bool,
}

/// Reads the rows of one partition key (API Reference: Query).
#[derive(Drop)]
pub struct Query {
    pub page: PageRequest,
    /// What has to be true of a row's key.
    pub key_condition: Condition,
    /// Whether the rows come in ascending order of the sort key (ScanIndexForward).
    pub forward: bool,
}

/// Reads all rows, or those of a segment (API Reference: Scan).
#[derive(Drop)]
pub struct Scan {
    pub page: PageRequest,
    pub segment: Option<Segment>,
}

/// One of `total` parts, from 0. It is below `total`, which is 1 to 1,000,000 (API Reference: Scan, Segment).
#[derive(Clone, Copy)]
pub struct Segment {
    pub segment: u64,
    pub total: u64,
}
