//! Operations, by the target that names them.

ghost use Rattle.std.specs.Prelude.{◌≡◌};
ghost use Rattle.api_request.specs.Operations.{name_of, HasName, IsTarget, IsNamed, form_of};
ghost use Rattle.request_parts.specs.Asks.{lent};

use api_form::Form;

/// The operations (API Reference: Actions).
#[derive(Clone, Copy)]
pub(crate) enum Operation {
    PutItem,
    GetItem,
    UpdateItem,
    DeleteItem,
    Query,
    Scan,
    BatchGetItem,
    BatchWriteItem,
    TransactWriteItems,
    TransactGetItems,
    CreateTable,
    DeleteTable,
    UpdateTable,
    DescribeTable,
    ListTables,
    UpdateTimeToLive,
    DescribeTimeToLive,
}

/// All operations.
const OPERATIONS: [Operation; 17] = [
    Operation::PutItem,
    Operation::GetItem,
    Operation::UpdateItem,
    Operation::DeleteItem,
    Operation::Query,
    Operation::Scan,
    Operation::BatchGetItem,
    Operation::BatchWriteItem,
    Operation::TransactWriteItems,
    Operation::TransactGetItems,
    Operation::CreateTable,
    Operation::DeleteTable,
    Operation::UpdateTable,
    Operation::DescribeTable,
    Operation::ListTables,
    Operation::UpdateTimeToLive,
    Operation::DescribeTimeToLive,
];

impl Operation {
    /// The operation's name.
    fn name(self) -> &'static str
        ensures { result.now ≡ name_of self }
    {
        match self {
            Operation::PutItem => "PutItem",
            Operation::GetItem => "GetItem",
            Operation::UpdateItem => "UpdateItem",
            Operation::DeleteItem => "DeleteItem",
            Operation::Query => "Query",
            Operation::Scan => "Scan",
            Operation::BatchGetItem => "BatchGetItem",
            Operation::BatchWriteItem => "BatchWriteItem",
            Operation::TransactWriteItems => "TransactWriteItems",
            Operation::TransactGetItems => "TransactGetItems",
            Operation::CreateTable => "CreateTable",
            Operation::DeleteTable => "DeleteTable",
            Operation::UpdateTable => "UpdateTable",
            Operation::DescribeTable => "DescribeTable",
            Operation::ListTables => "ListTables",
            Operation::UpdateTimeToLive => "UpdateTimeToLive",
            Operation::DescribeTimeToLive => "DescribeTimeToLive",
        }
    }
}

/// The operation that a message names, where it names one.
pub(crate) fn operation_named(target: Option<&[u8]>) -> Option<Operation>
    ensures { IsNamed (lent target.entry) result }
{
    match target {
        Some(target) => with_target(target),
        None => None,
    }
}

/// The operation of a target: the version of the API, and the operation's name.
#[tactic(auto, using(crate::proofs::Operations::behind_version, crate::proofs::Operations::version_stripped, crate::proofs::Operations::no_version))]
fn with_target(target: &[u8]) -> Option<Operation>
    ensures { IsTarget target.now result }
{
    let Some(name) = target.strip_prefix(b"DynamoDB_20120810.".as_slice()) else {
        return None;
    };
    with_name(name)
}

/// The operation of this name.
fn with_name(name: &[u8]) -> Option<Operation>
    ensures { HasName name.now result }
{
    for operation in &OPERATIONS {
        if operation.name().as_bytes() == name {
            return Some(*operation);
        }
    }
    None
}

/// The form of an operation's body.
pub(crate) fn form_of(operation: Operation) -> Form
    ensures { result ≡ form_of operation }
{
    match operation {
        Operation::PutItem => Form::PutItem,
        Operation::GetItem => Form::GetItem,
        Operation::UpdateItem => Form::UpdateItem,
        Operation::DeleteItem => Form::DeleteItem,
        Operation::Query => Form::Query,
        Operation::Scan => Form::Scan,
        Operation::BatchGetItem => Form::BatchGetItem,
        Operation::BatchWriteItem => Form::BatchWriteItem,
        Operation::TransactWriteItems => Form::TransactWriteItems,
        Operation::TransactGetItems => Form::TransactGetItems,
        Operation::CreateTable => Form::CreateTable,
        Operation::DeleteTable => Form::DeleteTable,
        Operation::UpdateTable => Form::UpdateTable,
        Operation::DescribeTable => Form::DescribeTable,
        Operation::ListTables => Form::ListTables,
        Operation::UpdateTimeToLive => Form::UpdateTimeToLive,
        Operation::DescribeTimeToLive => Form::DescribeTimeToLive,
    }
}
