ghost use Rattle.std.specs.Prelude.{◌≡◌, Ok, IfOk, IfErr, option_map};
ghost use Rattle.toml.specs.View.{table_view};
ghost use Rattle.chew_spec_settings.specs.SettingsText.{settings_in_table, settings_of, table_in};
ghost use Rattle.chew_settings.specs.Faults.{IsFaultOf};

use crate::fault::{SettingCause, SettingsFault};
use crate::keys::SettingName;
use crate::settings::Settings;
use crate::table::{are_settings, bad, settings_in};
use chew_syllable::NoMemory;
use std::alloc::Global;
use toml::Table;

/// The most bytes of a settings text, 64 KiB.
pub const SETTINGS_LIMIT: usize = 65_536;

/// The settings that a text says; a key that is absent has its standard value. A text of more than 64 KiB is refused, one
/// that is no table of TOML, one with a key that is no setting, and one with a value of another kind or outside its range,
/// of which the first in the order of the settings is told. Want of memory is told apart, as `NoMemory`.
#[tactic(auto, unfolding(chew_spec_settings::specs::SettingsText::settings_of))]
pub fn read_settings(alloc: Global, text: &[u8]) -> Result<Settings, SettingsFault>
    ensures ok { IfOk result (λ settings. settings_of text.now ≡ Ok settings) }
    ensures bad { IfErr result (λ fault. IsFaultOf (settings_of text.now) fault) }
{
    if text.len() > SETTINGS_LIMIT {
        return Err(bad(SettingName::Other, SettingCause::Size));
    }
    match table_in(alloc, text) {
        Ok(Some(table)) => settings_of_table(&table),
        Ok(None) => Err(bad(SettingName::Other, SettingCause::Toml)),
        Err(NoMemory) => Err(SettingsFault::NoMemory),
    }
}

/// The settings of a table, where each of its keys is one of a setting.
fn settings_of_table(table: &Table) -> Result<Settings, SettingsFault>
    ensures ok { IfOk result (λ settings. settings_in_table (table_view table.now) ≡ Ok settings) }
    ensures bad { IfErr result (λ fault. IsFaultOf (settings_in_table (table_view table.now)) fault) }
{
    if !are_settings(table) {
        return Err(bad(SettingName::Other, SettingCause::Unknown));
    }
    settings_in(table)
}

/// The table that a text is, or `None` where it is none.
fn table_in(alloc: Global, text: &[u8]) -> Result<Option<Table>, NoMemory>
    ensures { IfOk result (λ found. option_map (λ table. table_view table) found ≡ table_in text.now) }
{
    match toml::table_from_slice(alloc, text) {
        Ok(table) => Ok(Some(table)),
        Err(fault) => {
            if fault.is_memory() {
                return Err(NoMemory);
            }
            Ok(None)
        }
    }
}
