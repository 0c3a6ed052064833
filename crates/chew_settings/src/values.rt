ghost use Rattle.std.specs.Prelude.{◌≡◌, ◌≤◌, ◌==◌, IfOk, option_map};
ghost use Rattle.std.specs.List.{list_all, list_any};
ghost use Rattle.toml.specs.Data.{get_member, integer, string};
ghost use Rattle.toml.specs.View.{table_view, view};
ghost use Rattle.chew_layouts.specs.Layouts.{kind_of};
ghost use Rattle.chew_spec_editor.specs.Invariant.{is_distinct, is_selection_key};
ghost use Rattle.chew_spec_settings.specs.Values as spec;
ghost use Rattle.chew_settings.specs.Faults.{told, told_by};

use crate::fault::SettingCause;
use crate::settings::{PAGE_LIMIT, Settings};
use chew_layouts::Kind;
use chew_syllable::{RUN_LIMIT, USER_ROWS_LIMIT};
use toml::{Table, Value};

/// The layout that a table sets, or the standard one.
pub(crate) fn layout_in(table: &Table) -> Result<Kind, SettingCause>
    ensures { told_by kind_of result ≡ spec.layout_in (table_view table.now) }
{
    match value_at(table, "layout") {
        Some(value) => layout_value(value),
        None => Ok(Settings::standard().layout),
    }
}

/// The cells of the buffer that a table sets, or the standard number.
pub(crate) fn buffer_in(table: &Table) -> Result<u8, SettingCause>
    ensures { told result ≡ spec.buffer_in (table_view table.now) }
{
    match value_at(table, "buffer") {
        Some(value) => small_number(value, RUN_LIMIT as u8),
        None => Ok(Settings::standard().buffer),
    }
}

/// The candidates of a page that a table sets, or the standard number.
pub(crate) fn page_in(table: &Table) -> Result<u8, SettingCause>
    ensures { told result ≡ spec.page_in (table_view table.now) }
{
    match value_at(table, "page") {
        Some(value) => small_number(value, PAGE_LIMIT as u8),
        None => Ok(Settings::standard().page),
    }
}

/// The selection keys that a table sets, or the standard ones.
pub(crate) fn selection_in(table: &Table) -> Result<[u8; PAGE_LIMIT], SettingCause>
    ensures { told result ≡ spec.selection_in (table_view table.now) }
{
    match value_at(table, "selection") {
        Some(value) => selection_value(value),
        None => Ok(Settings::standard().selection),
    }
}

/// Whether a table sets that Esc empties the buffer; the standard is no.
pub(crate) fn escape_clears_in(table: &Table) -> Result<bool, SettingCause>
    ensures { told result ≡ spec.escape_clears_in (table_view table.now) }
{
    match value_at(table, "escape_clears") {
        Some(value) => truth(value),
        None => Ok(Settings::standard().escape_clears),
    }
}

/// Whether a table sets that what is committed is learnt; the standard is yes.
pub(crate) fn learn_in(table: &Table) -> Result<bool, SettingCause>
    ensures { told result ≡ spec.learn_in (table_view table.now) }
{
    match value_at(table, "learn") {
        Some(value) => truth(value),
        None => Ok(Settings::standard().learn),
    }
}

/// The most pairs of the dictionary that a table sets, or the standard number.
pub(crate) fn cap_in(table: &Table) -> Result<u32, SettingCause>
    ensures { told result ≡ spec.cap_in (table_view table.now) }
{
    match value_at(table, "cap") {
        Some(value) => integer_up_to(value, USER_ROWS_LIMIT),
        None => Ok(Settings::standard().cap),
    }
}

/// The value that a table has under a key.
fn value_at<'a>(table: &'a Table, key: &str) -> Option<&'a Value>
    ensures { option_map (λ value. view value.now) result ≡ get_member key.now (table_view table.now) }
{
    table.get(key)
}

/// A layout by its name.
fn layout_value(value: &Value) -> Result<Kind, SettingCause>
    ensures { told_by kind_of result ≡ spec.layout_value (view value.now) }
{
    match value.as_str() {
        Some(name) => match layout_named(name) {
            Some(layout) => Ok(layout),
            None => Err(SettingCause::Range),
        },
        None => Err(SettingCause::Kind),
    }
}

/// The layout of a name.
fn layout_named(name: &str) -> Option<Kind>
    ensures { option_map kind_of result ≡ spec.layout_named name.now }
{
    match name {
        "default" => Some(Kind::Standard),
        "eten" => Some(Kind::Eten),
        "hsu" => Some(Kind::Hsu),
        "et26" => Some(Kind::Et26),
        "pinyin" => Some(Kind::Pinyin),
        _ => None,
    }
}

/// Yes or no.
fn truth(value: &Value) -> Result<bool, SettingCause>
    ensures { told result ≡ spec.truth (view value.now) }
{
    match value.as_bool() {
        Some(value) => Ok(value),
        None => Err(SettingCause::Kind),
    }
}

/// A number of at least 1 and at most this, which is a byte.
fn small_number(value: &Value, greatest: u8) -> Result<u8, SettingCause>
    ensures { told result ≡ spec.integer_up_to greatest (view value.now) }
{
    let number = integer_up_to(value, u32::from(greatest))?;
    Ok(number as u8)
}

/// A number of at least 1 and at most this.
fn integer_up_to(value: &Value, greatest: u32) -> Result<u32, SettingCause>
    ensures value { told result ≡ spec.integer_up_to greatest (view value.now) }
    ensures within { IfOk result (λ number. number ≤ greatest) }
{
    match value.as_integer() {
        Some(number) => in_range(number, greatest),
        None => Err(SettingCause::Kind),
    }
}

/// The number, where it is at least 1 and at most this.
fn in_range(number: i64, greatest: u32) -> Result<u32, SettingCause>
    ensures value { told result ≡ spec.integer_up_to greatest (integer number) }
    ensures within { IfOk result (λ number. number ≤ greatest) }
{
    if number < 1 || number > i64::from(greatest) {
        return Err(SettingCause::Range);
    }
    Ok(number as u32)
}

/// Ten different bytes that may be selection keys.
fn selection_value(value: &Value) -> Result<[u8; PAGE_LIMIT], SettingCause>
    ensures { told result ≡ spec.selection_value (view value.now) }
{
    match value.as_str() {
        Some(keys) => ten_keys(keys.as_bytes()),
        None => Err(SettingCause::Kind),
    }
}

/// The bytes, where they are ten different ones that may be selection keys.
fn ten_keys(bytes: &[u8]) -> Result<[u8; PAGE_LIMIT], SettingCause>
    ensures { told result ≡ spec.selection_value (string bytes.now) }
{
    if !are_selection_keys(bytes) || !are_distinct(bytes) {
        return Err(SettingCause::Range);
    }
    match <[u8; PAGE_LIMIT]>::try_from(bytes) {
        Ok(keys) => Ok(keys),
        Err(_) => Err(SettingCause::Range),
    }
}

/// Whether each byte may be a selection key: printable, and no space.
fn are_selection_keys(bytes: &[u8]) -> bool
    ensures { result ≡ list_all is_selection_key bytes.now }
{
    bytes.iter().all(|byte| 0x21 <= *byte && *byte <= 0x7E)
}

/// Whether no two of the bytes are the same.
fn are_distinct(bytes: &[u8]) -> bool
    ensures { result ≡ is_distinct bytes.now }
{
    match bytes {
        [] => true,
        [byte, others @ ..] => {
            if has_byte(others, *byte) {
                return false;
            }
            are_distinct(others)
        }
    }
}

/// Whether a byte is among others.
fn has_byte(others: &[u8], byte: u8) -> bool
    ensures { result ≡ list_any (λ other. other == byte) others.now }
{
    others.iter().any(|other| *other == byte)
}
