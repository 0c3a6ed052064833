//! Texts that are no scripts, each with its first fault.

use crate::script_text::fails;
use chew_script::ScriptCause;

/// Scripts that are refused, each with the first faulty line and its cause.
const FAULTS: [(&[u8], u32, ScriptCause); 45] = [
    (b"\x80", 1, ScriptCause::Byte),
    (b"1:a\tb", 1, ScriptCause::Byte),
    (b"1:a\x7f", 1, ScriptCause::Byte),
    (b"\r\r\n", 1, ScriptCause::Byte),
    (b"1:\ra", 1, ScriptCause::Byte),
    (b"x\x80", 1, ScriptCause::Byte),
    (b"17:\x80", 1, ScriptCause::Byte),
    (b"1:<Q>\x80", 1, ScriptCause::Byte),
    (b"# \x80\n\x80", 2, ScriptCause::Byte),
    (b"1", 1, ScriptCause::Form),
    (b":h", 1, ScriptCause::Form),
    (b" 1:h", 1, ScriptCause::Form),
    (b"1 :h", 1, ScriptCause::Form),
    (b"-1:h", 1, ScriptCause::Form),
    (b"hk4", 1, ScriptCause::Form),
    (b"Round", 1, ScriptCause::Form),
    (b"round ", 1, ScriptCause::Form),
    (b" # no comment", 1, ScriptCause::Form),
    (b"x1:<Q>", 1, ScriptCause::Form),
    (b"0:", 1, ScriptCause::Context),
    (b"17:hk4", 1, ScriptCause::Context),
    (b"01:hk4", 1, ScriptCause::Context),
    (b"100:", 1, ScriptCause::Context),
    (b"18446744073709551617:", 1, ScriptCause::Context),
    (b"17:<Q>", 1, ScriptCause::Context),
    (b"1:<Q>", 1, ScriptCause::Key),
    (b"1:<", 1, ScriptCause::Key),
    (b"1:<E", 1, ScriptCause::Key),
    (b"1:<>", 1, ScriptCause::Key),
    (b"1:<<E>", 1, ScriptCause::Key),
    (b"1:<e>", 1, ScriptCause::Key),
    (b"1:<E >", 1, ScriptCause::Key),
    (b"1:<C1>", 1, ScriptCause::Key),
    (b"1:<C10>", 1, ScriptCause::Key),
    (b"1:<F0>", 1, ScriptCause::Key),
    (b"1:<F10>", 1, ScriptCause::Key),
    (b"1:<K1>", 1, ScriptCause::Key),
    (b"1:<K10>", 1, ScriptCause::Key),
    (b"1:hk4\n\n# c\n\x80", 4, ScriptCause::Byte),
    (b"1:hk4\r\n\r\nround\r\nrounds\r\n", 4, ScriptCause::Form),
    (b"1:hk4\n2:\n\n17:\n", 4, ScriptCause::Context),
    (b"1:hk4\n2:\n\n2:<lt><", 4, ScriptCause::Key),
    (b"1:<Q>\n17:\n", 1, ScriptCause::Key),
    (b"17:\n1:<Q>\n", 1, ScriptCause::Context),
    (b"\n1\n\x80", 2, ScriptCause::Form),
];

#[test]
fn faults_have_their_line_and_cause(rt: HostRuntime) {
    for (text, line, cause) in &FAULTS {
        fails(&rt, rt.alloc(), text, *line, *cause);
    }
}
