//! Tests as a condition.

ghost use Rattle.std.specs.Prelude.{◌≡◌, ◌+◌, ◌++◌, ◌<◌, ◌^◌, length, false, None, IfOk, IfErr, OnOk};
ghost use Rattle.std.specs.Option.{option_map};
ghost use Rattle.expr_words.specs.Trees.{tree};
ghost use Rattle.legacy_params.specs.Faults.{tests_fault, keys_fault, fault_of, faults_of};
ghost use Rattle.legacy_params.specs.Tests.{values_of, test_values};
ghost use Rattle.legacy_params.specs.Trees.{condition_of, part_of, joined_to};
ghost use Rattle.legacy_params.specs.Answers.{IsEnd};

use crate::fault::{LegacyEnd, LegacyFault, least};
use crate::leaf::part;
use crate::part::{Legacy, LegacyTest};
use attr_value::Value;
use base_types::Seq;
use expr_words::Condition;
use std::alloc::{AllocError as NoMemory, Global};

/// The most tests of one condition. Its tree is a level deeper for each, and is copied, asked and dropped by recursion:
/// no deeper than the text of an expression can make it.
const MOST_TESTS: usize = 640;

/// The first fault of the tests of a condition or a filter: BadOperator, BadCount, TwoForms.
pub fn tests_fault(tests: &[LegacyTest]) -> Option<LegacyFault>
    ensures { result ≡ tests_fault tests.now }
{
    faults_of(tests, false)
}

/// The first fault of the tests of a key condition: BadOperator, also for an operator that is not of keys, BadCount,
/// TwoForms.
pub fn keys_fault(tests: &[LegacyTest]) -> Option<LegacyFault>
    ensures { result ≡ keys_fault tests.now }
{
    faults_of(tests, true)
}

/// The first fault of tests, of which those for keys have fewer operators.
fn faults_of(tests: &[LegacyTest], for_keys: bool) -> Option<LegacyFault>
    ensures { result ≡ faults_of for_keys tests.now }
{
    let mut first = None;
    for test in tests {
        first = least(first, test.fault(for_keys));
    }
    first
}

/// The condition of Expected, or the filter of QueryFilter or ScanFilter: its tests in their order, joined by OR where
/// `any` is set, else by AND. No test is no condition. The values are moved behind those `before`, and are named by
/// their places there.
///
/// A fault is the first of BadOperator, BadCount and TwoForms over all tests. NoMemory where memory is refused, for
/// more than 640 tests, whose tree is too deep, and for 2^32 values and more, which no place names.
pub fn condition(
    alloc: Global,
    tests: Seq<LegacyTest>,
    any: bool,
    before: Seq<Value>,
) -> Result<Legacy<Option<Condition>>, LegacyEnd>
    ensures tree { IfOk result (λ made. option_map tree made.tree ≡ condition_of any (length before) tests) }
    ensures values { IfOk result (λ made. made.values ≡ before ++ test_values tests) }
    ensures sound { OnOk result (tests_fault tests ≡ None) }
    ensures fault { IfErr result (λ end. IsEnd (tests_fault tests) end) }
{
    if let Some(fault) = tests_fault(tests.as_slice()) {
        return Err(LegacyEnd::Fault(fault));
    }
    Ok(joined(alloc, tests, any, before)?)
}

/// The key condition of KeyConditions: its tests in their order, joined by AND. No test is no condition. The values are
/// moved, and named by their places.
///
/// A fault is the first of BadOperator, BadCount and TwoForms over all tests; an operator that is not of keys is
/// BadOperator. NoMemory as of [`condition`].
pub fn keys(alloc: Global, tests: Seq<LegacyTest>) -> Result<Legacy<Option<Condition>>, LegacyEnd>
    ensures tree { IfOk result (λ made. option_map tree made.tree ≡ condition_of false 0 tests) }
    ensures values { IfOk result (λ made. made.values ≡ test_values tests) }
    ensures sound { OnOk result (keys_fault tests ≡ None) }
    ensures fault { IfErr result (λ end. IsEnd (keys_fault tests) end) }
{
    if let Some(fault) = keys_fault(tests.as_slice()) {
        return Err(LegacyEnd::Fault(fault));
    }
    Ok(joined(alloc, tests, false, Seq::new(alloc))?)
}

/// The tests, joined by OR or by AND, with their values behind those before.
fn joined(
    alloc: Global,
    tests: Seq<LegacyTest>,
    any: bool,
    before: Seq<Value>,
) -> Result<Legacy<Option<Condition>>, NoMemory>
    ensures tree { IfOk result (λ made. option_map tree made.tree ≡ condition_of any (length before) tests) }
    ensures values { IfOk result (λ made. made.values ≡ before ++ test_values tests) }
{
    if tests.len() > MOST_TESTS {
        return Err(NoMemory);
    }
    let mut values = before;
    let mut tree = None;
    for test in Vec::from(tests) {
        let part = part(alloc, test, &mut values)?;
        tree = Some(joined_to(alloc, any, tree, part)?);
    }
    Ok(Legacy { tree, values })
}

/// The part, behind the tree so far.
fn joined_to(
    alloc: Global,
    any: bool,
    left: Option<Condition>,
    part: Condition,
) -> Result<Condition, NoMemory>
    ensures { IfOk result (λ whole. tree whole ≡ joined_to any (option_map tree left) (tree part)) }
{
    let Some(left) = left else {
        return Ok(part);
    };
    let left = Box::new(alloc, left)?;
    let part = Box::new(alloc, part)?;
    Ok(if any {
        Condition::Or(left, part)
    } else {
        Condition::And(left, part)
    })
}
