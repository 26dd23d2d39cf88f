//! Names of keys, as they are given.
ghost use Rattle.std.specs.Prelude.{◌≡◌, IfOk, bytes_eq, filter, map, not, option_map, option_to_list};
ghost use Rattle.std.specs.List.{list_any};
ghost use Rattle.parallel_keys.specs.KeysToCheck.{what_of};
ghost use Rattle.judged_keys.specs.Selected.{is_selected, missing_names, names_in};

use parallel_keys::KeyToCheck;
use std::alloc::Global;
use tag::{Key, Memory};

/// The names of the keys that alone are judged; each key if none is named.
#[derive(Clone, Copy, Debug)]
pub enum Names<'a> {
    /// None.
    Nothing,
    /// One.
    One(&'a str),
    /// Those of the list.
    Several(&'a [&'a str]),
}

/// Whether the key has one of the names.
fn has_name(names: &[&str], key: &Key) -> bool
    ensures { result ≡ list_any (λ name. bytes_eq name.now key.now) names.now }
{
    names.iter().any(|name| *name == key.as_str())
}

/// Whether one of the keys has the name.
fn has_key(keys: &[KeyToCheck<'_>], name: &str) -> bool
    ensures { result ≡ list_any (λ one. bytes_eq name.now one.key.now) keys.now }
{
    keys.iter().any(|one| name == one.key.as_str())
}

/// Those of the names that none of the keys has, in their order.
fn missing_of<'a>(
    alloc: Global,
    names: &[&'a str],
    keys: &[KeyToCheck<'_>],
) -> Result<Vec<&'a str>, Memory>
    ensures { IfOk result (λ few. few.items
        ≡ filter (λ name. not (list_any (λ one. bytes_eq name.now one.key.now) keys.now))
        names.now) }
{
    let few = names.iter().filter(|name| !has_key(keys, name)).copied();
    Ok(few.collect(alloc)?)
}

impl<'a> Names<'a> {
    /// That name, or none.
    pub fn of(name: Option<&'a str>) -> Names<'a>
        ensures { names_in result ≡ option_to_list (option_map (λ text. text.now) name.entry) }
    {
        match name {
            Some(name) => Names::One(name),
            None => Names::Nothing,
        }
    }

    /// Whether the key is judged.
    pub(crate) fn take(&self, key: &Key) -> bool
        ensures { result ≡ is_selected (names_in self.now) key.now }
    {
        match self {
            Names::Nothing => true,
            Names::One(name) => *name == key.as_str(),
            Names::Several(names) => names.is_empty() || has_name(names, key),
        }
    }

    /// Those of the names that none of the keys has, in their order.
    pub(crate) fn missing(
        &self,
        alloc: Global,
        keys: &[KeyToCheck<'_>],
    ) -> Result<Vec<&'a str>, Memory>
        ensures { IfOk result (λ names. map (λ name. name.now) names.items
            ≡ missing_names (map what_of keys.now) (names_in self.now)) }
    {
        match self {
            Names::Nothing => Ok(Vec::new(alloc)),
            Names::One(name) => missing_of(alloc, &[*name], keys),
            Names::Several(names) => missing_of(alloc, names, keys),
        }
    }
}
