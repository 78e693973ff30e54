//! Names of attributes as a projection.

ghost use Rattle.std.specs.Prelude.{◌≡◌, ◌↔◌, None, map, IfOk, IfErr, OnOk, IsTrue};
ghost use Rattle.expr_parse.specs.Overlaps.{HaveOverlap};
ghost use Rattle.legacy_params.specs.Faults.{attributes_fault};
ghost use Rattle.legacy_params.specs.Trees.{path_to};
ghost use Rattle.legacy_params.specs.Answers.{IsEnd};

use crate::fault::{LegacyEnd, LegacyFault};
use crate::leaf::path_to;
use base_types::{DocPath, Seq, Text};
use expr_words::Paths;
use std::alloc::{AllocError as NoMemory, Global};
use std::collections::BTreeSet;

/// The most names of one projection: as many as the text of an expression has room for. A page looks at all of them for
/// each of its rows.
const MOST_NAMES: usize = 2_048;

/// The fault of AttributesToGet: NoAttributes where it is empty.
pub fn attributes_fault(names: &[Text]) -> Option<LegacyFault>
    ensures { result ≡ attributes_fault names.now }
{
    match names {
        [] => Some(LegacyFault::NoAttributes),
        _ => None,
    }
}

/// Whether a name stands twice, so that two paths of the projection overlap. NoMemory where memory is refused.
pub fn any_twice(alloc: Global, names: &[Text]) -> Result<bool, NoMemory>
    ensures { IfOk result (λ twice. IsTrue twice ↔ HaveOverlap (map path_to names.now)) }
{
    let mut seen = BTreeSet::new(alloc);
    for name in names {
        if !seen.insert(name.as_str())? {
            return Ok(true);
        }
    }
    Ok(false)
}

/// The projection of AttributesToGet: the path of each name, in their order. Names are moved. NoAttributes where there is
/// none; NoMemory where memory is refused, and for more than 2,048 names.
pub fn attributes(alloc: Global, names: Seq<Text>) -> Result<Paths, LegacyEnd>
    ensures paths { IfOk result (λ made. made.paths ≡ map path_to names) }
    ensures sound { OnOk result (attributes_fault names ≡ None) }
    ensures fault { IfErr result (λ end. IsEnd (attributes_fault names) end) }
{
    if let Some(fault) = attributes_fault(names.as_slice()) {
        return Err(LegacyEnd::Fault(fault));
    }
    if names.len() > MOST_NAMES {
        return Err(LegacyEnd::NoMemory);
    }
    Ok(Paths {
        paths: paths_to(alloc, names)?,
    })
}

/// The paths of the attributes, in the order of their names.
fn paths_to(alloc: Global, names: Seq<Text>) -> Result<Seq<DocPath>, NoMemory>
    ensures { IfOk result (λ paths. paths ≡ map path_to names) }
{
    let mut paths = Seq::with_capacity(alloc, names.len())?;
    for name in Vec::from(names) {
        paths.push(path_to(alloc, name)?)?;
    }
    Ok(paths)
}
