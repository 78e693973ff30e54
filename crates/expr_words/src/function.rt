//! The functions of expressions.

ghost use Rattle.std.specs.Prelude.{◌≡◌};
ghost use Rattle.expr_words.specs.Functions.{function_of};

/// What a name before a parenthesis calls.
#[derive(Clone, Copy)]
pub enum Function {
    Size,
    Exists,
    NotExists,
    HasType,
    BeginsWith,
    Contains,
    IfNotExists,
    ListAppend,
    Unknown,
}

/// The function of a name, which is written exactly so.
pub fn function_of(name: &str) -> Function
    ensures { result ≡ function_of name.now }
{
    match name {
        "size" => Function::Size,
        "attribute_exists" => Function::Exists,
        "attribute_not_exists" => Function::NotExists,
        "attribute_type" => Function::HasType,
        "begins_with" => Function::BeginsWith,
        "contains" => Function::Contains,
        "if_not_exists" => Function::IfNotExists,
        "list_append" => Function::ListAppend,
        _ => Function::Unknown,
    }
}
