use chew_commands::{Command, Words, command_of};
use std::test::Fail;

#[test]
fn each_command_has_its_words(rt: HostRuntime) -> Result<(), Fail> {
    let run = Command::Run {
        trace: false,
        system: 1,
        script: 2,
        folder: 3,
        settings: None,
    };
    let traced = Command::Run {
        trace: true,
        system: 1,
        script: 3,
        folder: 4,
        settings: Some(5),
    };
    assert_eq!(rt; command_of(&["run", "a", "b", "c"]), Ok(run));
    assert_eq!(rt;
        command_of(&["run", "a", "--trace", "b", "c", "d"]),
        Ok(traced)
    );
    assert_eq!(rt;
        command_of(&["build", "a", "b"]),
        Ok(Command::Build { from: 1, to: 2 })
    );
    assert_eq!(rt; command_of(&["check", "a"]), Ok(Command::Check { from: 1 }));
    assert_eq!(rt; command_of(&["dump", "a"]), Ok(Command::Dump { from: 1 }));
    assert_eq!(rt;
        command_of(&["make", "00007"]),
        Ok(Command::Make { number: 7 })
    );
    Ok(())
}

#[test]
fn all_other_words_are_refused(rt: HostRuntime) -> Result<(), Fail> {
    assert_eq!(rt; command_of(&[]), Err(Words));
    assert_eq!(rt; command_of(&["run", "a", "b"]), Err(Words));
    assert_eq!(rt;
        command_of(&["run", "a", "b", "c", "--trace", "--trace"]),
        Err(Words)
    );
    assert_eq!(rt; command_of(&["run", "a", "b", "c", "d", "e"]), Err(Words));
    assert_eq!(rt; command_of(&["run", "a", "", "c"]), Err(Words));
    assert_eq!(rt; command_of(&["build", "a", "-b"]), Err(Words));
    assert_eq!(rt; command_of(&["check", "--help"]), Err(Words));
    assert_eq!(rt; command_of(&["--version"]), Err(Words));
    assert_eq!(rt; command_of(&["make", "18446744073709551616"]), Err(Words));
    assert_eq!(rt; command_of(&["make", ""]), Err(Words));
    Ok(())
}
