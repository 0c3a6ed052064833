ghost use Rattle.std.specs.Prelude.{◌≡◌, Ok, IfOk, IfErr};
ghost use Rattle.toml.specs.View.{table_view};
ghost use Rattle.chew_spec_settings.specs.SettingsText.{are_settings, settings_in};
ghost use Rattle.chew_settings.specs.Faults.{IsFaultOf};

use crate::fault::{SettingCause, SettingsFault};
use crate::keys::{SettingName, is_setting};
use crate::settings::Settings;
use crate::values::{
    buffer_in, cap_in, escape_clears_in, layout_in, learn_in, page_in, selection_in,
};
use toml::Table;

/// Whether each key of a table is one of a setting.
pub(crate) fn are_settings(table: &Table) -> bool
    ensures { result ≡ are_settings (table_view table.now) }
{
    'keys: for (key, _value) in table.iter() {
        if !is_setting(key.as_str()) {
            return false;
        }
    }
    true
}

/// The settings of a table, or the first that has a fault, in their order.
#[tactic(auto, unfolding(chew_spec_settings::specs::SettingsText::settings_in))]
pub(crate) fn settings_in(table: &Table) -> Result<Settings, SettingsFault>
    ensures ok { IfOk result (λ settings. settings_in (table_view table.now) ≡ Ok settings) }
    ensures bad { IfErr result (λ fault. IsFaultOf (settings_in (table_view table.now)) fault) }
{
    let layout = match layout_in(table) {
        Ok(layout) => layout,
        Err(cause) => return Err(bad(SettingName::Layout, cause)),
    };
    let buffer = match buffer_in(table) {
        Ok(buffer) => buffer,
        Err(cause) => return Err(bad(SettingName::Buffer, cause)),
    };
    let page = match page_in(table) {
        Ok(page) => page,
        Err(cause) => return Err(bad(SettingName::Page, cause)),
    };
    let selection = match selection_in(table) {
        Ok(selection) => selection,
        Err(cause) => return Err(bad(SettingName::Selection, cause)),
    };
    let escape_clears = match escape_clears_in(table) {
        Ok(clears) => clears,
        Err(cause) => return Err(bad(SettingName::EscapeClears, cause)),
    };
    let learn = match learn_in(table) {
        Ok(learn) => learn,
        Err(cause) => return Err(bad(SettingName::Learn, cause)),
    };
    let cap = match cap_in(table) {
        Ok(cap) => cap,
        Err(cause) => return Err(bad(SettingName::Cap, cause)),
    };
    Ok(Settings {
        layout,
        buffer,
        page,
        selection,
        escape_clears,
        learn,
        cap,
    })
}

/// The fault of a setting.
pub(crate) fn bad(key: SettingName, cause: SettingCause) -> SettingsFault
    ensures { result ≡ SettingsFault.Bad key cause }
{
    SettingsFault::Bad { key, cause }
}
