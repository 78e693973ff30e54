//! Which transaction a client's token stands for, until 600 seconds after that transaction was completed.
//!
//! A client sends a token with a transaction so that the same call, sent again, doesn't act twice. The one who runs
//! the transactions [keeps](Tokens::keep) the token with the transaction's number and actions, [finds](Tokens::find)
//! it again at a repeat, [completes](Tokens::complete) it with the transaction, [frees](Tokens::free) it where the
//! transaction was cancelled, and at each new call [purges](Tokens::purge) the tokens whose life is over.
//!
//! A contract sees [`Tokens`] as a finite map from the bytes of each kept token to what it is kept with, and each call
//! says which map it leaves. How the tokens stand in memory shows nowhere. For a layer that states what it keeps as
//! lists, `specs/TokenList.antt` has the same calls on a list, and `proofs/TokenLists.antt` shows that a list which has
//! the kept tokens has them again after each call.
#![tactic(auto)]

mod heap;
mod kept;
mod tokens;

pub use kept::Kept;
pub use tokens::Tokens;
