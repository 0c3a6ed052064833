//! Texts, and the settings or the fault that each gives.

use crate::{SettingCause, SettingName, Settings, SettingsFault, read_settings};
use chew_layouts::Kind;
use std::test::Fail;

/// Faulty texts, and what is told of each.
const FAULTS: [(&[u8], SettingName, SettingCause); 6] = [
    (b"#\xFF", SettingName::Other, SettingCause::Toml),
    (
        b"bufer = 4\nlayout = 1",
        SettingName::Other,
        SettingCause::Unknown,
    ),
    (
        b"page = 0\nlayout = 1",
        SettingName::Layout,
        SettingCause::Kind,
    ),
    (b"buffer = 40", SettingName::Buffer, SettingCause::Range),
    (
        b"selection = '1234567891'",
        SettingName::Selection,
        SettingCause::Range,
    ),
    (b"cap = 1.0", SettingName::Cap, SettingCause::Kind),
];

#[test]
fn the_first_fault_is_told(rt: HostRuntime) -> Result<(), Fail> {
    for (text, key, cause) in FAULTS {
        let fault = read_settings(rt.alloc(), text).err();
        assert_eq!(rt; fault, Some(SettingsFault::Bad { key, cause }));
    }
    let spaces = vec![in rt.alloc(); b' '; 65_537]?;
    let fault = read_settings(rt.alloc(), &spaces).err();
    let size = SettingsFault::Bad {
        key: SettingName::Other,
        cause: SettingCause::Size,
    };
    assert_eq!(rt; fault, Some(size));
    Ok(())
}

#[test]
fn what_is_not_set_is_standard(rt: HostRuntime) -> Result<(), Fail> {
    let text = b"layout = 'hsu'\nbuffer = 39\nselection = 'asdfghjkl;'\nlearn = false";
    let settings = read_settings(rt.alloc(), text)?;
    let standard = Settings::standard();
    assert_eq!(rt; settings.layout, Kind::Hsu);
    assert_eq!(rt; settings.buffer, 39);
    assert_eq!(rt; settings.page, standard.page);
    assert_eq!(rt; settings.selection(), b"asdfghjkl;".as_slice());
    assert_eq!(rt; settings.escape_clears, standard.escape_clears);
    assert!(rt; !settings.is_learning());
    assert_eq!(rt; settings.cap, standard.cap);
    Ok(())
}

#[test]
fn a_fault_prints_its_setting(rt: HostRuntime) -> Result<(), Fail> {
    let fault = SettingsFault::Bad {
        key: SettingName::EscapeClears,
        cause: SettingCause::Kind,
    };
    let printed = format!(in rt.alloc(); "{fault}")?;
    assert_eq!(rt;
        printed.as_str(),
        "escape_clears: the value is of another kind"
    );
    Ok(())
}
