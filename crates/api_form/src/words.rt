//! The words that members may have (DynamoDB API Reference).

ghost use Rattle.std.specs.Prelude.{◌≡◌, map};
ghost use Rattle.api_form.specs.Forms.{words_of, has_word, is_one_of};

pub const ATTRIBUTE_TYPE: [&str; 3] = ["S", "N", "B"];

pub const BILLING_MODE: [&str; 2] = ["PROVISIONED", "PAY_PER_REQUEST"];

pub const CONSUMED_CAPACITY: [&str; 3] = ["INDEXES", "TOTAL", "NONE"];

pub const KEY_TYPE: [&str; 2] = ["HASH", "RANGE"];

pub const OLD_IMAGE: [&str; 2] = ["NONE", "ALL_OLD"];

pub const PROJECTION_TYPE: [&str; 3] = ["KEYS_ONLY", "INCLUDE", "ALL"];

pub const SELECT: [&str; 4] = [
    "ALL_ATTRIBUTES",
    "ALL_PROJECTED_ATTRIBUTES",
    "SPECIFIC_ATTRIBUTES",
    "COUNT",
];

pub const UPDATE_IMAGE: [&str; 5] = ["NONE", "ALL_OLD", "UPDATED_OLD", "ALL_NEW", "UPDATED_NEW"];

/// Which words a member may have.
#[derive(Clone, Copy)]
pub enum Words {
    AttributeType,
    BillingMode,
    ConsumedCapacity,
    KeyType,
    OldImage,
    ProjectionType,
    Select,
    UpdateImage,
}

/// Whether the text is one of the words.
pub fn has_word(words: Words, text: &str) -> bool
    ensures { result ≡ has_word words text.now }
{
    is_one_of(text, words_of(words))
}

fn words_of(words: Words) -> &'static [&'static str]
    ensures { map (λ word. word.now) result.now ≡ words_of words }
{
    match words {
        Words::AttributeType => &ATTRIBUTE_TYPE,
        Words::BillingMode => &BILLING_MODE,
        Words::ConsumedCapacity => &CONSUMED_CAPACITY,
        Words::KeyType => &KEY_TYPE,
        Words::OldImage => &OLD_IMAGE,
        Words::ProjectionType => &PROJECTION_TYPE,
        Words::Select => &SELECT,
        Words::UpdateImage => &UPDATE_IMAGE,
    }
}

fn is_one_of(text: &str, words: &[&str]) -> bool
    ensures { result ≡ is_one_of text.now (map (λ word. word.now) words.now) }
{
    for word in words {
        if text == *word {
            return true;
        }
    }
    false
}
