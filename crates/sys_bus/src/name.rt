//! The names of a platform's entries.
ghost use Rattle.std.specs.Prelude.{◌≡◌, ◌↔◌, IsTrue, count_by};
ghost use Rattle.std.specs.Str.{bytes_eq};
ghost use Rattle.sys_bus.specs.Name as name;

use crate::plan::{Named, NamedWhat};
use lab_num::{Text, is_identifier};

pub(crate) fn are_names(names: &[Named]) -> bool
    ensures { result ≡ name.are_names names.now }
{
    names.iter().all(|n| is_identifier(n.name.as_str()))
}

/// How many entries have a name.
fn count_of(names: &[Named], text: &str) -> usize
    ensures { result ≡ count_by (λ n. bytes_eq n.name text.now) names.now }
{
    names.iter().filter(|n| n.name.as_str() == text).count()
}

pub(crate) fn do_names_differ(names: &[Named]) -> bool
    ensures { result ≡ name.names_differ names.now }
{
    names.iter().all(|n| count_of(names, n.name.as_str()) == 1)
}

fn is_processor(what: NamedWhat) -> bool
    ensures { result ≡ name.is_processor what }
{
    match what {
        NamedWhat::Cpu => true,
        NamedWhat::Part(_) => false,
    }
}

/// Whether these are the names of the processors, in the order of their entries.
pub(crate) fn are_processors(names: &[Named], cpus: &[Text]) -> bool
    ensures { IsTrue result ↔ cpus.now ≡ name.processors names.now }
{
    let mut rest = cpus;
    for named in names {
        if is_processor(named.what) {
            let Some((first, others)) = rest.split_first() else {
                return false;
            };
            if named.name.as_str() != first.as_str() {
                return false;
            }
            rest = others;
        }
    }
    rest.is_empty()
}
