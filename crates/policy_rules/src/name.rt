//! The rule of the name: P10.

ghost use Rattle.std.specs.Prelude.{◌≡◌, not, option_map, option_and_then};
ghost use Rattle.std.specs.Option.{option_copied};
ghost use Rattle.std.specs.List.{flat_map, list_any};
ghost use Rattle.name_rules.specs.Folder.{begins_with};
ghost use Rattle.b2_model.specs.Checks.{first_fault, some_and};
ghost use Rattle.b2_model.specs.Policy.{items, name_at, name_rule, names_at};
ghost use Rattle.policy_rules.specs.Asked.{caller, judged, named, numbers};
ghost use Rattle.b2_types.specs.Denied.{denied};

use crate::asked::{Asked, Asker, Fields};
use crate::known::Known;
use crate::place::prefix_limit;
use b2_types::{Denial, Thing, VersionId};
use name_rules::is_prefix;

fn is_outside(prefix: &[u8], name: Option<&[u8]>) -> bool
    ensures { result ≡ some_and (λ name. not (begins_with prefix.now name))
        (option_copied name.entry) }
{
    match name {
        Some(name) => !is_prefix(prefix, name),
        None => false,
    }
}

// Whether there is a file of these numbers whose name is outside of the prefix.
fn is_file_outside<K: Known>(known: &K, prefix: &[u8], file: Option<VersionId>) -> bool
    ensures { result ≡ list_any (λ name. not (begins_with prefix.now name))
        (items (option_and_then (name_at (K.state known.now)) (option_map numbers file))) }
{
    let Some(file) = file else {
        return false;
    };
    match known.file_name(file) {
        Some(name) => !is_prefix(prefix, name.get().as_bytes()),
        None => false,
    }
}

// Whether a name that the thing has is outside of the prefix.
fn is_thing_outside<K: Known>(known: &K, prefix: &[u8], fields: &Fields<'_>, thing: Thing) -> bool
    ensures { result ≡ list_any (λ name. not (begins_with prefix.now name))
        (names_at (K.state known.now) (named fields.now) thing) }
{
    match thing {
        Thing::Account | Thing::Bucket | Thing::SomeBucket | Thing::PathBucket => false,
        Thing::File => is_file_outside(known, prefix, fields.file),
        Thing::Source => is_file_outside(known, prefix, fields.source),
        Thing::Name => is_outside(prefix, fields.name),
        Thing::Prefix => is_outside(prefix, fields.prefix),
    }
}

// Whether one of the things has a name outside of the prefix.
fn has_outside<K: Known>(known: &K, prefix: &[u8], fields: &Fields<'_>, things: &[Thing]) -> bool
    ensures { result ≡ list_any (λ thing. list_any (λ name. not (begins_with prefix.now name))
        (names_at (K.state known.now) (named fields.now) thing)) things.now }
{
    things
        .iter()
        .any(|thing| is_thing_outside(known, prefix, fields, *thing))
}

// Whether a name that is named is outside of the prefix.
fn is_any_outside<K: Known>(known: &K, prefix: &[u8], fields: &Fields<'_>, things: &[Thing]) -> bool
    ensures { result ≡ list_any (λ name. not (begins_with prefix.now name))
        (flat_map (names_at (K.state known.now) (named fields.now)) things.now) }
{
    has_outside(known, prefix, fields, things)
}

/// P10, where it fails. A file's name is that of its version; a file that is gone has none.
pub fn name_rule<K: Known>(known: &K, asker: &Asker<'_>, asked: &Asked<'_>) -> Result<(), Denial>
    ensures { denied result
        ≡ first_fault (name_rule (K.state known.now) (judged asked.now) (caller asker.now)) }
{
    if is_any_outside(known, prefix_limit(asker), &asked.fields, asked.need.things) {
        return Err(Denial::P10);
    }
    Ok(())
}
