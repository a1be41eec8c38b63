//! The keys that tables know.

ghost use Rattle.std.specs.Prelude.{◌≡◌, not, string_bytes};
ghost use Rattle.std.specs.List.{list_any};
ghost use Rattle.std.specs.BTreeMap.{keys};
ghost use Rattle.toml.specs.View.{table_view};
ghost use Rattle.dz_config.specs.Document.{is_key, known};

use crate::fault::ConfigFault;
use toml::Table;

/// A table of a configuration.
#[derive(Clone, Copy, Debug, PartialEq, Eq)]
pub enum Place {
    /// The whole document, before every table.
    Document,
    /// A catalog, `[[catalog]]`.
    Catalog,
    /// A group of a catalog, `[[catalog.group]]`.
    Group,
}

/// Whether the key is one of a table of this place.
fn is_key(place: Place, key: &[u8]) -> bool
    ensures { result ≡ is_key place key.now }
{
    match place {
        Place::Document => {
            key == b"listen".as_slice()
                || key == b"catalog".as_slice()
                || key == b"downstream".as_slice()
        }
        Place::Catalog => {
            key == b"name".as_slice()
                || key == b"policy".as_slice()
                || key == b"primaries".as_slice()
                || key == b"group".as_slice()
                || key == b"key".as_slice()
                || key == b"secret".as_slice()
        }
        Place::Group => {
            key == b"word".as_slice()
                || key == b"policy".as_slice()
                || key == b"primaries".as_slice()
        }
    }
}

/// Whether a key isn't known.
fn has_unknown(place: Place, table: &Table) -> bool
    ensures { result ≡ list_any (λ key. not (is_key place (string_bytes key))) (keys table.now) }
{
    table.keys().any(|key| !is_key(place, key.as_bytes()))
}

/// Success where each key of a table is known, or the fault `UnknownKey`.
pub(crate) fn known(place: Place, table: &Table) -> Result<(), ConfigFault>
    ensures { result ≡ known place (table_view table.now) }
{
    if has_unknown(place, table) {
        Err(ConfigFault::UnknownKey)
    } else {
        Ok(())
    }
}
