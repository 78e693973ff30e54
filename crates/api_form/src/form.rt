//! Forms and rules. A form is a name: it states a rule, and where that is of an object, the members of a table. The rule of each
//! member stands in its row.

ghost use Rattle.std.specs.Prelude.{◌≡◌, IsTrue};
ghost use Rattle.api_form.specs.Forms.{rule_of, members_of, ascends};

use crate::name::Name;
use crate::spelling::Spelling;
use crate::tables;
use crate::words::Words;

/// The forms of bodies, and of what stands in objects, lists and maps.
#[derive(Clone, Copy)]
pub enum Form {
    // bodies
    CreateTable,
    DeleteTable,
    UpdateTable,
    DescribeTable,
    ListTables,
    UpdateTimeToLive,
    DescribeTimeToLive,
    PutItem,
    GetItem,
    UpdateItem,
    DeleteItem,
    BatchGetItem,
    BatchWriteItem,
    Query,
    Scan,
    TransactWriteItems,
    TransactGetItems,
    // schemas
    Definition,
    KeyElement,
    Index,
    Projection,
    Throughput,
    IndexUpdate,
    DeletedIndex,
    TimeToLiveSpecification,
    // batches and transactions
    KeysAndAttributes,
    WriteRequests,
    WriteRequest,
    PutRequest,
    DeleteRequest,
    TransactWrite,
    ConditionCheck,
    Delete,
    Put,
    Update,
    TransactGet,
    Get,
    // tests and changes of single attributes
    AttributeValueUpdate,
    Condition,
    ExpectedAttributeValue,
    // values and texts
    Item,
    Value,
    Text,
    FilledText,
}

/// Whether a member has to be there.
#[derive(Clone, Copy)]
pub enum Need {
    Required,
    Optional,
    /// Required where the other member is there.
    With(Name),
    /// Required unless the other member is an object that is not empty.
    UnlessFilled(Name),
}

/// A stated member of an object.
#[derive(Clone, Copy)]
pub struct Member(pub Name, pub Need, pub Rule);

/// What is stated of a value.
#[derive(Clone, Copy)]
pub enum Rule {
    /// An object with the members of the form's table. Others are ignored.
    Object(Form),
    /// An object with exactly one of the members of the form's table.
    OneOf(Form),
    /// A list of this many elements of one form.
    List { of: Form, least: u64, most: u64 },
    /// A list of objects of one form that have at most one of the members of its table, all together.
    AtMostOne { of: Form },
    /// An object whose members are all of one form. Their names are spelled in one way.
    Map { names: Spelling, of: Form },
    /// An object whose members are all of one form, and named as tables are. Together they ask for one to this many
    /// reads or writes.
    Tables { of: Form, most: u64 },
    /// A text.
    Text(Spelling),
    /// One of these words.
    Word(Words),
    /// A whole number in a range.
    Whole { least: u64, most: u64 },
    /// True or false.
    Flag,
    /// An attribute value.
    Value,
}

/// What the form states.
pub fn stated_rule(form: Form) -> Rule
    ensures { result ≡ rule_of form }
{
    match form {
        Form::Item => tables::ITEM,
        Form::Value => Rule::Value,
        Form::Text => tables::TEXT,
        Form::FilledText => tables::FILLED_TEXT,
        Form::WriteRequests => tables::WRITE_REQUESTS,
        Form::WriteRequest | Form::TransactWrite => Rule::OneOf(form),
        _ => Rule::Object(form),
    }
}

/// The members that the form states, in the order of their names' bytes; none where it states none.
pub fn members(form: Form) -> &'static [Member]
    ensures table { result.now ≡ members_of form }
    ensures in_order { IsTrue (ascends result.now) }
{
    match form {
        Form::CreateTable => &tables::CREATE_TABLE,
        Form::DeleteTable | Form::DescribeTable | Form::DescribeTimeToLive => &tables::NAMED_TABLE,
        Form::UpdateTable => &tables::UPDATE_TABLE,
        Form::ListTables => &tables::LIST_TABLES,
        Form::UpdateTimeToLive => &tables::UPDATE_TIME_TO_LIVE,
        Form::PutItem => &tables::PUT_ITEM,
        Form::GetItem => &tables::GET_ITEM,
        Form::UpdateItem => &tables::UPDATE_ITEM,
        Form::DeleteItem => &tables::DELETE_ITEM,
        Form::BatchGetItem => &tables::BATCH_GET_ITEM,
        Form::BatchWriteItem => &tables::BATCH_WRITE_ITEM,
        Form::Query => &tables::QUERY,
        Form::Scan => &tables::SCAN,
        Form::TransactWriteItems => &tables::TRANSACT_WRITE_ITEMS,
        Form::TransactGetItems => &tables::TRANSACT_GET_ITEMS,
        Form::Definition => &tables::DEFINITION,
        Form::KeyElement => &tables::KEY_ELEMENT,
        Form::Index => &tables::INDEX,
        Form::Projection => &tables::PROJECTION,
        Form::Throughput => &tables::THROUGHPUT,
        Form::IndexUpdate => &tables::INDEX_UPDATE,
        Form::DeletedIndex => &tables::DELETED_INDEX,
        Form::TimeToLiveSpecification => &tables::TIME_TO_LIVE_SPECIFICATION,
        Form::KeysAndAttributes => &tables::KEYS_AND_ATTRIBUTES,
        Form::WriteRequest => &tables::WRITE_REQUEST,
        Form::PutRequest => &tables::PUT_REQUEST,
        Form::DeleteRequest => &tables::DELETE_REQUEST,
        Form::TransactWrite => &tables::TRANSACT_WRITE,
        Form::ConditionCheck => &tables::CONDITION_CHECK,
        Form::Delete => &tables::DELETE,
        Form::Put => &tables::PUT,
        Form::Update => &tables::UPDATE,
        Form::TransactGet => &tables::TRANSACT_GET,
        Form::Get => &tables::GET,
        Form::AttributeValueUpdate => &tables::ATTRIBUTE_VALUE_UPDATE,
        Form::Condition => &tables::CONDITION_OF_ATTRIBUTE,
        Form::ExpectedAttributeValue => &tables::EXPECTED_ATTRIBUTE_VALUE,
        _ => &tables::NO_MEMBERS,
    }
}
