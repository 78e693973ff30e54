//! Clients' tokens, kept until 600 seconds after they were completed.

use base_types::Text;
use client_tokens::{Kept, Tokens};
use std::alloc::{AllocError as NoMemory, Global};
use std::test::Fail;

const SECOND: u64 = 1_000_000;

/// The i-th of 10,000 tokens is completed at a second of its own, out of order. Each tenth isn't completed.
fn completed_moment(i: u64) -> Option<u64> {
    if i % 10 == 0 {
        None
    } else {
        Some(i.wrapping_mul(7919) % 10_000 * SECOND)
    }
}

/// The i-th token's text.
fn token(alloc: Global, i: u64) -> Result<String, NoMemory> {
    format!(in alloc; "t{i}")
}

/// Keeps a token with a number. Whether it wasn't kept.
fn keep(
    alloc: Global,
    tokens: &mut Tokens<u64>,
    token: &str,
    number: u64,
) -> Result<bool, NoMemory> {
    if tokens.find(token).is_some() {
        return Ok(false);
    }
    let kept = Kept {
        number,
        actions: number,
        completed: None,
    };
    tokens.keep(Text::copied(alloc, token)?, kept)?;
    Ok(true)
}

/// Completes a token. Whether it was kept and not completed.
fn complete(tokens: &mut Tokens<u64>, token: &str, moment: u64) -> bool {
    match tokens.find(token) {
        Some(
            Kept {
                completed: None,
                ..
            },
        ) => {}
        _ => return false,
    }
    tokens.complete(token, moment);
    true
}

/// Keeps the i-th token and completes it. Whether that was done.
fn enter(alloc: Global, tokens: &mut Tokens<u64>, i: u64) -> Result<bool, NoMemory> {
    let token = token(alloc, i)?;
    if !keep(alloc, tokens, token.as_str(), i)? {
        return Ok(false);
    }
    Ok(match completed_moment(i) {
        Some(moment) => complete(tokens, token.as_str(), moment),
        None => true,
    })
}

/// Whether the i-th token is there just if it was completed after this moment, or not at all.
fn is_right(alloc: Global, tokens: &Tokens<u64>, i: u64, gone: u64) -> Result<bool, NoMemory> {
    let token = token(alloc, i)?;
    let lives = completed_moment(i).is_none_or(|moment| moment > gone);
    Ok(tokens.find(token.as_str()).is_some() == lives)
}

/// Whether each of the tokens is.
fn are_right(alloc: Global, tokens: &Tokens<u64>, gone: u64) -> Result<bool, NoMemory> {
    for i in 0..10_000 {
        if !is_right(alloc, tokens, i, gone)? {
            return Ok(false);
        }
    }
    Ok(true)
}

#[test]
fn ten_thousand_tokens_are_purged(rt: HostRuntime) -> Result<(), Fail> {
    let mut tokens = Tokens::make(rt.alloc())?;
    for i in 0..10_000 {
        assert!(rt; enter(rt.alloc(), &mut tokens, i)?);
    }
    for second in [0, 1, 4_999, 7_500, 20_000] {
        tokens.purge((second + 600) * SECOND);
        assert!(rt; are_right(rt.alloc(), &tokens, second * SECOND)?);
    }
    Ok(())
}
