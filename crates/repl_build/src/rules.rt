//! The tests of peripherals, each over all of them and their items in order.
ghost use Rattle.std.specs.Prelude.{◌≡◌};
ghost use Rattle.repl_build.specs.Plan.{tested};
ghost use Rattle.repl_build.specs.Rules as rules_spec;

use crate::attributes::{is_refused, is_unknown};
use crate::counts::{is_bare, is_one_too_many};
use crate::fault::{fault_if, refuse};
use crate::merge::{Peripheral, PlacedItem};
use crate::places::{collides, is_lacking, is_misplaced};
use crate::processors::{is_other_core, is_out_of_step};
use crate::references::refers_to_none;
use repl_read::{PlatCause, PlatFault};

/// What each peripheral and each item meets.
#[derive(Clone, Copy)]
pub(crate) enum Rule {
    /// A type is known.
    Types,
    /// An attribute is one that its type has.
    Attributes,
    /// What a type requires is there.
    Required,
    /// Values, addresses and sizes are of their sort and in range, and processors equally fast.
    Values,
    /// The processors are some that are built, all with the same letters.
    Core,
    /// There are no more of a type, and no more bytes of memory, than a board may have.
    Counts,
    /// No two overlap, and none passes the last address.
    Apart,
    /// Names that an item refers to stand for what it needs.
    References,
}

fn cause_of(rule: Rule) -> PlatCause
    ensures { result ≡ rules_spec.cause_of rule }
{
    match rule {
        Rule::Types => PlatCause::TypeName,
        Rule::Attributes => PlatCause::Attribute,
        Rule::Required => PlatCause::Missing,
        Rule::Values => PlatCause::Value,
        Rule::Core => PlatCause::Core,
        Rule::Counts => PlatCause::Count,
        Rule::Apart => PlatCause::Overlap,
        Rule::References => PlatCause::Reference,
    }
}

/// Whether a peripheral breaks the rule, after those before it.
fn breaks(rule: Rule, before: &[Peripheral], p: &Peripheral) -> bool
    ensures { result ≡ rules_spec.breaks rule before.now p.now }
{
    match rule {
        Rule::Types => p.kind.is_none(),
        Rule::Required => is_lacking(p),
        Rule::Values => is_misplaced(p) || is_out_of_step(before, p),
        Rule::Counts => is_one_too_many(before, p),
        Rule::Apart => collides(before, p),
        Rule::Attributes | Rule::Core | Rule::References => false,
    }
}

/// Whether an item of a peripheral breaks the rule, after those before it and among all.
fn item_breaks(
    rule: Rule,
    all: &[Peripheral],
    before: &[Peripheral],
    p: &Peripheral,
    item: &PlacedItem,
) -> bool
    ensures { result ≡ rules_spec.item_breaks rule all.now before.now p.now item.now }
{
    match rule {
        Rule::Attributes => is_unknown(p.kind, &item.what),
        Rule::Values => is_refused(p.kind, before, p.at, &item.what),
        Rule::Core => is_other_core(before, &item.what),
        Rule::References => refers_to_none(all, &item.what),
        Rule::Types | Rule::Required | Rule::Counts | Rule::Apart => false,
    }
}

fn items_fault(
    rule: Rule,
    all: &[Peripheral],
    before: &[Peripheral],
    p: &Peripheral,
) -> Option<PlatFault>
    ensures { result ≡ rules_spec.items_fault rule all.now before.now p.now }
{
    for item in p.items.items() {
        let breaks = item_breaks(rule, all, before, p, item);
        let fault = fault_if(breaks, item.file, item.line, cause_of(rule));
        if fault.is_some() {
            return fault;
        }
    }
    None
}

fn peripheral_fault(
    rule: Rule,
    all: &[Peripheral],
    before: &[Peripheral],
    p: &Peripheral,
) -> Option<PlatFault>
    ensures { result ≡ rules_spec.peripheral_fault rule all.now before.now p.now }
{
    match fault_if(breaks(rule, before, p), p.file, p.line, cause_of(rule)) {
        Some(fault) => Some(fault),
        None => items_fault(rule, all, before, p),
    }
}

/// The fault of the first peripheral or item that breaks a rule.
fn broken(rule: Rule, all: &[Peripheral]) -> Option<PlatFault>
    ensures { result ≡ rules_spec.broken rule all.now }
{
    for (i, p) in all.iter().enumerate() {
        let fault = peripheral_fault(rule, all, &all[..i], p);
        if fault.is_some() {
            return fault;
        }
    }
    None
}

/// Passes where all rules are kept, and there is a processor and a memory.
pub(crate) fn tested(all: &[Peripheral]) -> Result<(), PlatFault>
    ensures { result ≡ tested all.now }
{
    refuse(broken(Rule::Types, all))?;
    refuse(broken(Rule::Attributes, all))?;
    refuse(broken(Rule::Required, all))?;
    refuse(broken(Rule::Values, all))?;
    refuse(broken(Rule::Core, all))?;
    refuse(broken(Rule::Counts, all))?;
    refuse(fault_if(is_bare(all), 0, 0, PlatCause::Count))?;
    refuse(broken(Rule::Apart, all))?;
    refuse(broken(Rule::References, all))
}
