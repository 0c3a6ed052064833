ghost use Rattle.std.specs.Prelude.{◌≡◌, ◌≤◌, All, IfErr, IfOk, length, map};
ghost use Rattle.chew_spec_text.specs.DictionaryText.{system_limit};
ghost use Rattle.chew_spec_text.specs.Script.{script_limit, script_of};
ghost use Rattle.chew_spec_settings.specs.SettingsText.{settings_limit, settings_of};
ghost use Rattle.chew_spec_program.specs.Command.{names_settings};
ghost use Rattle.chew_spec_program.specs.Opening.{IsOpening, or_refusal, system_rows};
ghost use Rattle.chew_spec_program.specs.Reading.{watched};
ghost use Rattle.chew_spec_program.specs.Refusal as spec;
ghost use Rattle.chew_spec_program.specs.Slots.{SparesDisk, kept};
ghost use Rattle.chewing_cli.specs.Opens.{FindsOrNoMemory, IsOrNoMemory, IsReady, ReadsOrNoMemory, SetsOrNoMemory, found_of, inputs_of, rows_of};
ghost use Rattle.chewing_cli.specs.Refusals.{kind_of, outcome_of};

use crate::refusal::Refusal;
use crate::system::{System, system_of};
use crate::words::names_settings;
use chew_commands::is_run;
use chew_outside::{Disk, Source, read_up_to};
use chew_rows::SYSTEM_LIMIT;
use chew_script::{SCRIPT_LIMIT, Script, read_script};
use chew_settings::{SETTINGS_LIMIT, Settings, read_settings};
use chew_slots::{Found, recover};
use std::alloc::Global;

/// What a run works on.
#[derive(Drop)]
pub(crate) struct Opened {
    pub(crate) settings: Settings,
    pub(crate) system: System,
    pub(crate) script: Script,
    /// The user's dictionary as it was recovered, and what is known of the slots.
    pub(crate) found: Found,
}

/// Opens a run: the words come first, then the settings where the words name them, then the system, then the script, and
/// then the slots of the disk, which is not written.
pub(crate) fn open<S: Source, I: Source, Y: Source, D: Disk>(
    alloc: Global,
    words: &[&str],
    settings: &mut S,
    system: &mut Y,
    script: &mut I,
    disk: &mut D,
) -> Result<Opened, Refusal>
    ensures told { D.told disk.new ≡ D.told disk.old }
    ensures opens { IsOpening (map (λ word. word.now) words.now)
        (watched (S.left settings.old) (S.left settings.new) (S.faults settings.old) (S.faults settings.new))
        (watched (Y.left system.old) (Y.left system.new) (Y.faults system.old) (Y.faults system.new))
        (watched (I.left script.old) (I.left script.new) (I.faults script.old) (I.faults script.new))
        (kept (D.told disk.old) (D.state disk.old) (D.state disk.new) (D.faults disk.old) (D.faults disk.new))
        (outcome_of inputs_of result) }
    ensures spares { IfErr result (λ refusal. SparesDisk (kind_of refusal)
        (kept (D.told disk.old) (D.state disk.old) (D.state disk.new) (D.faults disk.old) (D.faults disk.new))) }
    ensures ready { IfOk result (λ opened. IsReady
        (kept (D.told disk.old) (D.state disk.old) (D.state disk.new) (D.faults disk.old) (D.faults disk.new)) opened.found) }
    ensures few_contexts { IfOk result (λ opened. length opened.script.contexts ≤ 16) }
    ensures few_keys { IfOk result (λ opened. All (λ keys. length keys ≤ 65_536) opened.script.contexts) }
    ensures few_rounds { IfOk result (λ opened. opened.script.rounds ≤ 64) }
{
    if !is_run(words) {
        return Err(Refusal::WrongWords);
    }
    let settings = open_settings(alloc, words, settings)?;
    let system = open_system(alloc, system)?;
    let script = open_script(alloc, script)?;
    let found = open_slots(alloc, disk)?;
    Ok(Opened {
        settings,
        system,
        script,
        found,
    })
}

/// Reads the settings where the words name them, and else gives the standard ones.
fn open_settings<I: Source>(
    alloc: Global,
    words: &[&str],
    source: &mut I,
) -> Result<Settings, Refusal>
    ensures { SetsOrNoMemory (names_settings (map (λ word. word.now) words.now))
        (watched (I.left source.old) (I.left source.new) (I.faults source.old) (I.faults source.new)) (outcome_of (λ settings. settings) result) }
{
    if names_settings(words) {
        read_settings_of(alloc, source)
    } else {
        Ok(Settings::standard())
    }
}

/// Reads the settings.
fn read_settings_of<I: Source>(alloc: Global, source: &mut I) -> Result<Settings, Refusal>
    ensures { ReadsOrNoMemory (λ text. or_refusal spec.WrongSettings (settings_of text)) settings_limit
        (watched (I.left source.old) (I.left source.new) (I.faults source.old) (I.faults source.new)) (outcome_of (λ settings. settings) result) }
{
    match read_up_to(alloc, source, SETTINGS_LIMIT) {
        Ok(text) => settings_in(alloc, text.as_slice()),
        Err(fault) => Err(Refusal::of_read(fault)),
    }
}

/// The settings of a text.
fn settings_in(alloc: Global, text: &[u8]) -> Result<Settings, Refusal>
    ensures { IsOrNoMemory (or_refusal spec.WrongSettings (settings_of text.now)) (outcome_of (λ settings. settings) result) }
{
    match read_settings(alloc, text) {
        Ok(settings) => Ok(settings),
        Err(fault) => Err(Refusal::of_settings(fault)),
    }
}

/// Reads the system.
fn open_system<Y: Source>(alloc: Global, source: &mut Y) -> Result<System, Refusal>
    ensures { ReadsOrNoMemory system_rows system_limit
        (watched (Y.left source.old) (Y.left source.new) (Y.faults source.old) (Y.faults source.new)) (outcome_of rows_of result) }
{
    match read_up_to(alloc, source, SYSTEM_LIMIT) {
        Ok(bytes) => system_of(alloc, bytes),
        Err(fault) => Err(Refusal::of_read(fault)),
    }
}

/// Reads the script.
fn open_script<I: Source>(alloc: Global, source: &mut I) -> Result<Script, Refusal>
    ensures reads { ReadsOrNoMemory (λ text. or_refusal spec.WrongScript (script_of text)) script_limit
        (watched (I.left source.old) (I.left source.new) (I.faults source.old) (I.faults source.new)) (outcome_of (λ script. script) result) }
    ensures few_contexts { IfOk result (λ script. length script.contexts ≤ 16) }
    ensures few_keys { IfOk result (λ script. All (λ keys. length keys ≤ 65_536) script.contexts) }
    ensures few_rounds { IfOk result (λ script. script.rounds ≤ 64) }
{
    match read_up_to(alloc, source, SCRIPT_LIMIT) {
        Ok(text) => script_in(alloc, text.as_slice()),
        Err(fault) => Err(Refusal::of_read(fault)),
    }
}

/// What a text says.
fn script_in(alloc: Global, text: &[u8]) -> Result<Script, Refusal>
    ensures gives { IsOrNoMemory (or_refusal spec.WrongScript (script_of text.now)) (outcome_of (λ script. script) result) }
    ensures few_contexts { IfOk result (λ script. length script.contexts ≤ 16) }
    ensures few_keys { IfOk result (λ script. All (λ keys. length keys ≤ 65_536) script.contexts) }
    ensures few_rounds { IfOk result (λ script. script.rounds ≤ 64) }
{
    match read_script(alloc, text) {
        Ok(script) => Ok(script),
        Err(fault) => Err(Refusal::of_script(fault)),
    }
}

/// Recovers the user's dictionary from the slots.
fn open_slots<D: Disk>(alloc: Global, disk: &mut D) -> Result<Found, Refusal>
    ensures told { D.told disk.new ≡ D.told disk.old }
    ensures finds { FindsOrNoMemory
        (kept (D.told disk.old) (D.state disk.old) (D.state disk.new) (D.faults disk.old) (D.faults disk.new)) (outcome_of found_of result) }
    ensures spares { IfErr result (λ refusal. SparesDisk (kind_of refusal)
        (kept (D.told disk.old) (D.state disk.old) (D.state disk.new) (D.faults disk.old) (D.faults disk.new))) }
    ensures ready { IfOk result (λ found. IsReady
        (kept (D.told disk.old) (D.state disk.old) (D.state disk.new) (D.faults disk.old) (D.faults disk.new)) found) }
{
    match recover(alloc, disk) {
        Ok(found) => Ok(found),
        Err(fault) => Err(Refusal::of_slots(fault)),
    }
}
