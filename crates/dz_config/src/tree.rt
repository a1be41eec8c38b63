//! Values of a table, by their keys and kinds. The error of all functions is `MissingValue`: there is no value at the
//! key, or it is of another kind.

ghost use Rattle.std.specs.Prelude.{◌≡◌, map, option_map};
ghost use Rattle.std.specs.Option.{option_and_then};
ghost use Rattle.toml.specs.Data.{get_member, as_str, as_array, as_table};
ghost use Rattle.toml.specs.View.{view, table_view, array_view};
ghost use Rattle.dz_config.specs.Document.{list_of, wanted, text_at, values_at};
ghost use Rattle.dz_config.specs.Reading.{made};

use crate::fault::ConfigFault;
use toml::value::Array;
use toml::{Table, Value};

/// The value at a key.
pub(crate) fn value_at<'a>(table: &'a Table, key: &str) -> Option<&'a Value>
    ensures { option_map (λ v. view v.now) result ≡ get_member key.now (table_view table.now) }
{
    table.get(key)
}

/// The text of a value.
pub(crate) fn text_of(value: &Value) -> Result<&str, ConfigFault>
    ensures { made (λ text. text.now) result ≡ wanted (as_str (view value.now)) }
{
    match value.as_str() {
        Some(text) => Ok(text),
        None => Err(ConfigFault::MissingValue),
    }
}

/// The text at a key.
pub(crate) fn text_at<'a>(table: &'a Table, key: &str) -> Result<&'a str, ConfigFault>
    ensures { made (λ text. text.now) result ≡ text_at key.now (table_view table.now) }
{
    match value_at(table, key) {
        Some(value) => text_of(value),
        None => Err(ConfigFault::MissingValue),
    }
}

/// The table that a value is.
pub(crate) fn table_of(value: &Value) -> Result<&Table, ConfigFault>
    ensures { made (λ t. table_view t.now) result ≡ wanted (as_table (view value.now)) }
{
    match value.as_table() {
        Some(table) => Ok(table),
        None => Err(ConfigFault::MissingValue),
    }
}

/// The array that a value is.
fn array_of(value: &Value) -> Result<&Array, ConfigFault>
    ensures { made (λ a. array_view a.now) result ≡ wanted (as_array (view value.now)) }
{
    match value.as_array() {
        Some(array) => Ok(array),
        None => Err(ConfigFault::MissingValue),
    }
}

/// The values of an array.
fn values_of(value: &Value) -> Result<&[Value], ConfigFault>
    ensures { made (λ values. map view values.now) result
        ≡ made list_of (wanted (as_array (view value.now))) }
{
    Ok(array_of(value)?.as_slice())
}

/// The values of the array at a key.
pub(crate) fn values_at<'a>(table: &'a Table, key: &str) -> Result<&'a [Value], ConfigFault>
    ensures { made (λ values. map view values.now) result
        ≡ values_at key.now (table_view table.now) }
{
    match value_at(table, key) {
        Some(value) => values_of(value),
        None => Err(ConfigFault::MissingValue),
    }
}
