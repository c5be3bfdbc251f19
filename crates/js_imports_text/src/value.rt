//! Specifiers and names as JSON.

ghost use Rattle.std.specs.Prelude.{◌≡◌, ◌++◌, ◌^◌, ◌<◌, OnOk, length, string_bytes};
ghost use Rattle.js_imports_text.specs.Lines.{role_name, value_or_null};

use js_imports::Role;
use js_lists::TokenValue;
use js_text::RowValue;
use js_totsenak::{push_json_string, push_value_json};
use std::alloc::AllocError;

/// The name of what is found.
pub(crate) fn role_name(role: Role) -> &'static str
    ensures { result.now ≡ role_name role }
{
    match role {
        Role::Nothing => "nothing",
        Role::StaticImport => "static",
        Role::DynamicImport => "dynamic",
        Role::ImportMeta => "meta",
        Role::Require => "require",
        Role::ExportFrom => "export-from",
        Role::ExportName => "export",
        Role::ExportPattern => "export-pattern",
    }
}

/// Appends a specifier or a name as a string of JSON, and `null` where there is none.
pub(crate) fn push_value_or_null(
    text: &mut String,
    source: &str,
    value: &RowValue,
) -> Result<(), AllocError>
    requires { length source.now < 2 ^ 32 }
    ensures { OnOk result (string_bytes text.new ≡ string_bytes text.old ++ value_or_null source.now value.now) }
{
    match value {
        RowValue::Slice(span) => push_value_json(text, source, TokenValue::Slice(*span)),
        RowValue::Units(units) => push_json_string(text, units.units()),
        RowValue::Nothing | RowValue::Bad => text.push_str("null"),
    }
}
