//! The tables of the forms, and what they share. A table has a row a member: its name, whether it has to be there, and what
//! is stated of it. Rows stand in the order of the names' bytes. Each table names its page of the DynamoDB API Reference, and
//! has of it the members that this server knows.

use crate::form::Need::{Optional, Required, UnlessFilled, With};
use crate::form::{Form, Member, Rule};
use crate::name::Name;
use crate::spelling::Spelling;
use crate::words::Words;

// The rules of the forms that have no table.
pub const TEXT: Rule = Rule::Text(Spelling::Any);

pub const FILLED_TEXT: Rule = Rule::Text(Spelling::Filled);

pub const ITEM: Rule = Rule::Map {
    names: Spelling::Filled,
    of: Form::Value,
};

pub const WRITE_REQUESTS: Rule = Rule::List {
    of: Form::WriteRequest,
    least: 0,
    most: u64::MAX,
};

// Rules of members of several tables.
const TABLE_NAME: Rule = Rule::Text(Spelling::TableName);

const OLD_IMAGE: Rule = Rule::Word(Words::OldImage);

const LIMIT: Rule = Rule::Whole {
    least: 1,
    most: u64::MAX,
};

const UNITS: Rule = Rule::Whole {
    least: 0,
    most: u64::MAX,
};

const DEFINITIONS: Rule = Rule::List {
    of: Form::Definition,
    least: 0,
    most: u64::MAX,
};

const KEY_SCHEMA: Rule = Rule::List {
    of: Form::KeyElement,
    least: 0,
    most: u64::MAX,
};

/// Tests of attributes, by their names.
const TESTS: Rule = Rule::Map {
    names: Spelling::Filled,
    of: Form::Condition,
};

const VALUES_IN_ORDER: Rule = Rule::List {
    of: Form::Value,
    least: 0,
    most: u64::MAX,
};

const INDEXES: Rule = Rule::List {
    of: Form::Index,
    least: 0,
    most: u64::MAX,
};

// Members that many tables have.
const CAPACITY: Member = Member(
    Name::ReturnConsumedCapacity,
    Optional,
    Rule::Word(Words::ConsumedCapacity),
);

const METRICS: Member = Member(Name::ReturnItemCollectionMetrics, Optional, TEXT);

const CONDITION: Member = Member(Name::ConditionExpression, Optional, TEXT);

const NAMES: Member = Member(
    Name::ExpressionAttributeNames,
    Optional,
    Rule::Map {
        names: Spelling::NamePlaceholder,
        of: Form::FilledText,
    },
);

const VALUES: Member = Member(
    Name::ExpressionAttributeValues,
    Optional,
    Rule::Map {
        names: Spelling::ValuePlaceholder,
        of: Form::Value,
    },
);

const PROJECTED: Member = Member(Name::ProjectionExpression, Optional, TEXT);

const FILTER: Member = Member(Name::FilterExpression, Optional, TEXT);

const FAILED_IMAGE: Member = Member(
    Name::ReturnValuesOnConditionCheckFailure,
    Optional,
    OLD_IMAGE,
);

// Members that expressions have taken the place of (Developer Guide: Legacy conditional parameters). Their words are judged with
// the expressions.
const OPERATOR: Member = Member(Name::ConditionalOperator, Optional, TEXT);

const EXPECTED: Member = Member(
    Name::Expected,
    Optional,
    Rule::Map {
        names: Spelling::Filled,
        of: Form::ExpectedAttributeValue,
    },
);

const UPDATES: Member = Member(
    Name::AttributeUpdates,
    Optional,
    Rule::Map {
        names: Spelling::Filled,
        of: Form::AttributeValueUpdate,
    },
);

const ATTRIBUTES: Member = Member(
    Name::AttributesToGet,
    Optional,
    Rule::List {
        of: Form::Text,
        least: 0,
        most: u64::MAX,
    },
);

pub const NO_MEMBERS: [Member; 0] = [];

/// API Reference: CreateTable. Its names are judged with the whole schema.
pub const CREATE_TABLE: [Member; 9] = [
    Member(Name::AttributeDefinitions, Required, DEFINITIONS),
    Member(Name::BillingMode, Optional, Rule::Word(Words::BillingMode)),
    Member(Name::GlobalSecondaryIndexes, Optional, INDEXES),
    Member(Name::KeySchema, Required, KEY_SCHEMA),
    Member(Name::LocalSecondaryIndexes, Optional, INDEXES),
    Member(
        Name::ProvisionedThroughput,
        Optional,
        Rule::Object(Form::Throughput),
    ),
    CAPACITY,
    METRICS,
    Member(Name::TableName, Required, TEXT),
];

/// API Reference: DeleteTable, DescribeTable, DescribeTimeToLive.
pub const NAMED_TABLE: [Member; 3] = [
    CAPACITY,
    METRICS,
    Member(Name::TableName, Required, TABLE_NAME),
];

/// API Reference: UpdateTable.
pub const UPDATE_TABLE: [Member; 7] = [
    Member(Name::AttributeDefinitions, Optional, DEFINITIONS),
    Member(Name::BillingMode, Optional, Rule::Word(Words::BillingMode)),
    Member(
        Name::GlobalSecondaryIndexUpdates,
        Optional,
        Rule::AtMostOne {
            of: Form::IndexUpdate,
        },
    ),
    Member(
        Name::ProvisionedThroughput,
        Optional,
        Rule::Object(Form::Throughput),
    ),
    CAPACITY,
    METRICS,
    Member(Name::TableName, Required, TABLE_NAME),
];

/// API Reference: ListTables.
pub const LIST_TABLES: [Member; 4] = [
    Member(Name::ExclusiveStartTableName, Optional, TABLE_NAME),
    Member(
        Name::Limit,
        Optional,
        Rule::Whole {
            least: 1,
            most: 100,
        },
    ),
    CAPACITY,
    METRICS,
];

/// API Reference: UpdateTimeToLive.
pub const UPDATE_TIME_TO_LIVE: [Member; 4] = [
    CAPACITY,
    METRICS,
    Member(Name::TableName, Required, TABLE_NAME),
    Member(
        Name::TimeToLiveSpecification,
        Required,
        Rule::Object(Form::TimeToLiveSpecification),
    ),
];

/// API Reference: PutItem.
pub const PUT_ITEM: [Member; 11] = [
    CONDITION,
    OPERATOR,
    EXPECTED,
    NAMES,
    VALUES,
    Member(Name::Item, Required, ITEM),
    CAPACITY,
    METRICS,
    Member(Name::ReturnValues, Optional, OLD_IMAGE),
    FAILED_IMAGE,
    Member(Name::TableName, Required, TABLE_NAME),
];

/// API Reference: GetItem.
pub const GET_ITEM: [Member; 8] = [
    ATTRIBUTES,
    Member(Name::ConsistentRead, Optional, Rule::Flag),
    NAMES,
    Member(Name::Key, Required, ITEM),
    PROJECTED,
    CAPACITY,
    METRICS,
    Member(Name::TableName, Required, TABLE_NAME),
];

/// API Reference: UpdateItem.
pub const UPDATE_ITEM: [Member; 13] = [
    UPDATES,
    CONDITION,
    OPERATOR,
    EXPECTED,
    NAMES,
    VALUES,
    Member(Name::Key, Required, ITEM),
    CAPACITY,
    METRICS,
    Member(Name::ReturnValues, Optional, Rule::Word(Words::UpdateImage)),
    FAILED_IMAGE,
    Member(Name::TableName, Required, TABLE_NAME),
    Member(Name::UpdateExpression, Optional, TEXT),
];

/// API Reference: DeleteItem.
pub const DELETE_ITEM: [Member; 11] = [
    CONDITION,
    OPERATOR,
    EXPECTED,
    NAMES,
    VALUES,
    Member(Name::Key, Required, ITEM),
    CAPACITY,
    METRICS,
    Member(Name::ReturnValues, Optional, OLD_IMAGE),
    FAILED_IMAGE,
    Member(Name::TableName, Required, TABLE_NAME),
];

/// API Reference: BatchGetItem.
pub const BATCH_GET_ITEM: [Member; 3] = [
    Member(
        Name::RequestItems,
        Required,
        Rule::Tables {
            of: Form::KeysAndAttributes,
            most: 100,
        },
    ),
    CAPACITY,
    METRICS,
];

/// API Reference: BatchWriteItem.
pub const BATCH_WRITE_ITEM: [Member; 3] = [
    Member(
        Name::RequestItems,
        Required,
        Rule::Tables {
            of: Form::WriteRequests,
            most: 25,
        },
    ),
    CAPACITY,
    METRICS,
];

/// API Reference: Query.
pub const QUERY: [Member; 18] = [
    ATTRIBUTES,
    OPERATOR,
    Member(Name::ConsistentRead, Optional, Rule::Flag),
    Member(Name::ExclusiveStartKey, Optional, ITEM),
    NAMES,
    VALUES,
    FILTER,
    Member(Name::IndexName, Optional, TABLE_NAME),
    Member(
        Name::KeyConditionExpression,
        UnlessFilled(Name::KeyConditions),
        TEXT,
    ),
    Member(Name::KeyConditions, Optional, TESTS),
    Member(Name::Limit, Optional, LIMIT),
    PROJECTED,
    Member(Name::QueryFilter, Optional, TESTS),
    CAPACITY,
    METRICS,
    Member(Name::ScanIndexForward, Optional, Rule::Flag),
    Member(Name::Select, Optional, Rule::Word(Words::Select)),
    Member(Name::TableName, Required, TABLE_NAME),
];

/// API Reference: Scan.
pub const SCAN: [Member; 17] = [
    ATTRIBUTES,
    OPERATOR,
    Member(Name::ConsistentRead, Optional, Rule::Flag),
    Member(Name::ExclusiveStartKey, Optional, ITEM),
    NAMES,
    VALUES,
    FILTER,
    Member(Name::IndexName, Optional, TABLE_NAME),
    Member(Name::Limit, Optional, LIMIT),
    PROJECTED,
    CAPACITY,
    METRICS,
    Member(Name::ScanFilter, Optional, TESTS),
    Member(
        Name::Segment,
        With(Name::TotalSegments),
        Rule::Whole {
            least: 0,
            most: 999_999,
        },
    ),
    Member(Name::Select, Optional, Rule::Word(Words::Select)),
    Member(Name::TableName, Required, TABLE_NAME),
    Member(
        Name::TotalSegments,
        With(Name::Segment),
        Rule::Whole {
            least: 1,
            most: 1_000_000,
        },
    ),
];

/// API Reference: TransactWriteItems.
pub const TRANSACT_WRITE_ITEMS: [Member; 4] = [
    Member(
        Name::ClientRequestToken,
        Optional,
        Rule::Text(Spelling::Token),
    ),
    CAPACITY,
    METRICS,
    Member(
        Name::TransactItems,
        Required,
        Rule::List {
            of: Form::TransactWrite,
            least: 1,
            most: 100,
        },
    ),
];

/// API Reference: TransactGetItems.
pub const TRANSACT_GET_ITEMS: [Member; 3] = [
    CAPACITY,
    METRICS,
    Member(
        Name::TransactItems,
        Required,
        Rule::List {
            of: Form::TransactGet,
            least: 1,
            most: 100,
        },
    ),
];

/// API Reference: AttributeDefinition.
pub const DEFINITION: [Member; 2] = [
    Member(Name::AttributeName, Required, TEXT),
    Member(
        Name::AttributeType,
        Required,
        Rule::Word(Words::AttributeType),
    ),
];

/// API Reference: KeySchemaElement.
pub const KEY_ELEMENT: [Member; 2] = [
    Member(Name::AttributeName, Required, TEXT),
    Member(Name::KeyType, Required, Rule::Word(Words::KeyType)),
];

/// API Reference: LocalSecondaryIndex, GlobalSecondaryIndex, CreateGlobalSecondaryIndexAction. An index's own
/// throughput is ignored.
pub const INDEX: [Member; 3] = [
    Member(Name::IndexName, Required, TEXT),
    Member(Name::KeySchema, Required, KEY_SCHEMA),
    Member(Name::Projection, Required, Rule::Object(Form::Projection)),
];

/// API Reference: Projection.
pub const PROJECTION: [Member; 2] = [
    Member(
        Name::NonKeyAttributes,
        Optional,
        Rule::List {
            of: Form::Text,
            least: 0,
            most: u64::MAX,
        },
    ),
    Member(
        Name::ProjectionType,
        Required,
        Rule::Word(Words::ProjectionType),
    ),
];

/// API Reference: ProvisionedThroughput.
pub const THROUGHPUT: [Member; 2] = [
    Member(Name::ReadCapacityUnits, Optional, UNITS),
    Member(Name::WriteCapacityUnits, Optional, UNITS),
];

/// API Reference: GlobalSecondaryIndexUpdate. A change of an index's throughput is ignored.
pub const INDEX_UPDATE: [Member; 2] = [
    Member(Name::Create, Optional, Rule::Object(Form::Index)),
    Member(Name::Delete, Optional, Rule::Object(Form::DeletedIndex)),
];

/// API Reference: DeleteGlobalSecondaryIndexAction.
pub const DELETED_INDEX: [Member; 1] = [Member(Name::IndexName, Required, TABLE_NAME)];

/// API Reference: TimeToLiveSpecification.
pub const TIME_TO_LIVE_SPECIFICATION: [Member; 2] = [
    Member(
        Name::AttributeName,
        Required,
        Rule::Text(Spelling::AttributeName),
    ),
    Member(Name::Enabled, Required, Rule::Flag),
];

/// API Reference: KeysAndAttributes.
pub const KEYS_AND_ATTRIBUTES: [Member; 5] = [
    ATTRIBUTES,
    Member(Name::ConsistentRead, Optional, Rule::Flag),
    NAMES,
    Member(
        Name::Keys,
        Required,
        Rule::List {
            of: Form::Item,
            least: 0,
            most: u64::MAX,
        },
    ),
    PROJECTED,
];

/// API Reference: WriteRequest.
pub const WRITE_REQUEST: [Member; 2] = [
    Member(
        Name::DeleteRequest,
        Optional,
        Rule::Object(Form::DeleteRequest),
    ),
    Member(Name::PutRequest, Optional, Rule::Object(Form::PutRequest)),
];

/// API Reference: PutRequest.
pub const PUT_REQUEST: [Member; 1] = [Member(Name::Item, Required, ITEM)];

/// API Reference: DeleteRequest.
pub const DELETE_REQUEST: [Member; 1] = [Member(Name::Key, Required, ITEM)];

/// API Reference: TransactWriteItem.
pub const TRANSACT_WRITE: [Member; 4] = [
    Member(
        Name::ConditionCheck,
        Optional,
        Rule::Object(Form::ConditionCheck),
    ),
    Member(Name::Delete, Optional, Rule::Object(Form::Delete)),
    Member(Name::Put, Optional, Rule::Object(Form::Put)),
    Member(Name::Update, Optional, Rule::Object(Form::Update)),
];

/// API Reference: ConditionCheck.
pub const CONDITION_CHECK: [Member; 6] = [
    Member(Name::ConditionExpression, Required, TEXT),
    NAMES,
    VALUES,
    Member(Name::Key, Required, ITEM),
    FAILED_IMAGE,
    Member(Name::TableName, Required, TABLE_NAME),
];

/// API Reference: Delete.
pub const DELETE: [Member; 6] = [
    CONDITION,
    NAMES,
    VALUES,
    Member(Name::Key, Required, ITEM),
    FAILED_IMAGE,
    Member(Name::TableName, Required, TABLE_NAME),
];

/// API Reference: Put.
pub const PUT: [Member; 6] = [
    CONDITION,
    NAMES,
    VALUES,
    Member(Name::Item, Required, ITEM),
    FAILED_IMAGE,
    Member(Name::TableName, Required, TABLE_NAME),
];

/// API Reference: Update.
pub const UPDATE: [Member; 7] = [
    CONDITION,
    NAMES,
    VALUES,
    Member(Name::Key, Required, ITEM),
    FAILED_IMAGE,
    Member(Name::TableName, Required, TABLE_NAME),
    Member(Name::UpdateExpression, Required, TEXT),
];

/// API Reference: TransactGetItem.
pub const TRANSACT_GET: [Member; 1] = [Member(Name::Get, Required, Rule::Object(Form::Get))];

/// API Reference: Get.
pub const GET: [Member; 4] = [
    NAMES,
    Member(Name::Key, Required, ITEM),
    PROJECTED,
    Member(Name::TableName, Required, TABLE_NAME),
];

/// API Reference: AttributeValueUpdate.
pub const ATTRIBUTE_VALUE_UPDATE: [Member; 2] = [
    Member(Name::Action, Optional, TEXT),
    Member(Name::Value, Optional, Rule::Value),
];

/// API Reference: Condition. Without an operator it asks for equality.
pub const CONDITION_OF_ATTRIBUTE: [Member; 2] = [
    Member(Name::AttributeValueList, Optional, VALUES_IN_ORDER),
    Member(Name::ComparisonOperator, Optional, TEXT),
];

/// API Reference: ExpectedAttributeValue.
pub const EXPECTED_ATTRIBUTE_VALUE: [Member; 4] = [
    Member(Name::AttributeValueList, Optional, VALUES_IN_ORDER),
    Member(Name::ComparisonOperator, Optional, TEXT),
    Member(Name::Exists, Optional, Rule::Flag),
    Member(Name::Value, Optional, Rule::Value),
];
