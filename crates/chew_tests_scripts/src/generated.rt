//! Generated scripts, beside what another program wrote for the same numbers: the length, a checksum, and the ends.

use chew_script::{generate, read_script};
use std::alloc::Global;
use std::process::Abort;
use std::test::Fail;

/// What the other program wrote for a number.
#[derive(Clone, Copy)]
struct Written {
    number: u64,
    length: usize,
    checksum: u64,
    keys: usize,
    begins: &'static str,
    ends: &'static str,
}

const WRITTEN: [Written; 3] = [
    Written {
        number: 0,
        length: 12_961,
        checksum: 11_021_041_063_830_609_820,
        keys: 10_258,
        begins: "1:<L>hk4hk4g4hk4g4g4hk4<L>hk4g4<L>hk4<E>hk4g4g4<E>\n",
        ends: "\n1:g4hk4g4hk4<L><L>g4<E>hk4g4hk4hk4g4<E>hk4hk4<E>hk4g4\n1:<E>\n",
    },
    Written {
        number: 7,
        length: 12_988,
        checksum: 13_257_630_125_796_380_571,
        keys: 10_187,
        begins: "1:<E><L>hk4hk4hk4g4hk4g4g4<E>g4g4hk4hk4hk4g4hk4\n",
        ends: "\n1:hk4g4<E>g4hk4hk4g4hk4g4<L>hk4g4hk4<L>hk4g4hk4g4<E>\n1:<E>\n",
    },
    Written {
        number: u64::MAX,
        length: 13_034,
        checksum: 6_157_255_302_124_224_913,
        keys: 10_163,
        begins: "1:hk4<L>hk4g4hk4hk4g4hk4g4<L>hk4g4g4hk4hk4hk4<E>hk4\n",
        ends: "\n1:<E><E><L>g4hk4g4g4hk4<E>g4<L>g4<E><L>g4hk4\n1:<E>\n",
    },
];

/// The bytes as the digits of a number to the base 31, of 64 bits.
fn checksum(bytes: &[u8]) -> u64 {
    let mut sum: u64 = 0;
    for byte in bytes {
        sum = sum.wrapping_mul(31).wrapping_add(u64::from(*byte));
    }
    sum
}

/// The generated script is what was written.
fn is_written(rt: &impl Abort, alloc: Global, written: Written) -> Result<(), Fail> {
    let text = generate(alloc, written.number)?;
    let bytes = text.as_slice();
    assert_eq!(rt; bytes.len(), written.length);
    assert_eq!(rt; checksum(bytes), written.checksum);
    assert!(rt; bytes.starts_with(written.begins.as_bytes()));
    assert!(rt; bytes.ends_with(written.ends.as_bytes()));
    let Ok(script) = read_script(alloc, bytes) else {
        panic!(rt; "the script isn't read");
    };
    let contexts = script.contexts.lists();
    assert_eq!(rt; contexts.len(), 1);
    for keys in contexts {
        assert_eq!(rt; keys.len(), written.keys);
    }
    assert_eq!(rt; script.rounds, 0);
    Ok(())
}

#[test]
fn scripts_are_as_another_program_wrote_them(rt: HostRuntime) -> Result<(), Fail> {
    for written in WRITTEN {
        is_written(&rt, rt.alloc(), written)?;
    }
    Ok(())
}
