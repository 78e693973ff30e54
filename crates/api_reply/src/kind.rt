//! The kinds of errors.

ghost use Rattle.std.specs.Prelude.{◌≡◌};
ghost use Rattle.api_reply.specs.Kinds.{status_of, type_of};

/// What went wrong (DynamoDB API Reference: Common errors, and each operation's errors).
#[derive(Clone, Copy)]
pub enum ErrorKind {
    Validation,
    ResourceNotFound,
    ResourceInUse,
    ConditionalCheckFailed,
    TransactionCanceled,
    TransactionConflict,
    IdempotentParameterMismatch,
    LimitExceeded,
    Serialization,
    UnknownOperation,
    /// Want of memory, or a spent budget.
    InternalServer,
}

impl ErrorKind {
    /// The status of a reply with such an error.
    pub fn status(self) -> u16
        ensures { result ≡ status_of self }
    {
        match self {
            ErrorKind::InternalServer => 500,
            _ => 400,
        }
    }

    /// The error's type as bodies name it.
    pub(crate) fn type_name(self) -> &'static str
        ensures { result.now ≡ type_of self }
    {
        match self {
            ErrorKind::Validation => "com.amazon.coral.validate#ValidationException",
            ErrorKind::ResourceNotFound => {
                "com.amazonaws.dynamodb.v20120810#ResourceNotFoundException"
            }
            ErrorKind::ResourceInUse => "com.amazonaws.dynamodb.v20120810#ResourceInUseException",
            ErrorKind::ConditionalCheckFailed => {
                "com.amazonaws.dynamodb.v20120810#ConditionalCheckFailedException"
            }
            ErrorKind::TransactionCanceled => {
                "com.amazonaws.dynamodb.v20120810#TransactionCanceledException"
            }
            ErrorKind::TransactionConflict => {
                "com.amazonaws.dynamodb.v20120810#TransactionConflictException"
            }
            ErrorKind::IdempotentParameterMismatch => {
                "com.amazonaws.dynamodb.v20120810#IdempotentParameterMismatchException"
            }
            ErrorKind::LimitExceeded => "com.amazonaws.dynamodb.v20120810#LimitExceededException",
            ErrorKind::Serialization => "com.amazon.coral.service#SerializationException",
            ErrorKind::UnknownOperation => "com.amazon.coral.service#UnknownOperationException",
            ErrorKind::InternalServer => "com.amazonaws.dynamodb.v20120810#InternalServerError",
        }
    }
}
