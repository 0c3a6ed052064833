ghost use Rattle.std.specs.Prelude.{◌≤◌, IsTrue, length};
ghost use Rattle.chew_spec_dictionary.specs.Dictionary.{is_map};

use crate::figures::print_time;
use chew_measuring::Failure;
use chew_syllable::KeyRow;
use chew_trie_image::check_image;
use chew_trie_write::write_image;
use std::alloc::Global;
use std::io::Print;
use std::time::CpuClock;

/// Writes the image of rows and checks it, and prints how long each took.
pub(crate) fn print_image<R: CpuClock + Print>(
    rt: &R,
    alloc: Global,
    rows: &[KeyRow],
) -> Result<(), Failure>
    requires map { IsTrue (is_map rows.now) }
    requires few { length rows.now ≤ 250_000 }
{
    let start = rt.thread_cpu_time()?;
    let image = write_image(alloc, rows)?;
    let written = rt.thread_cpu_time()?;
    let _checked = check_image(&image);
    let checked = rt.thread_cpu_time()?;
    println!(rt; "{} rows, an image of {} bytes", rows.len(), image.len())?;
    print_time(rt, "image written", written.saturating_sub(start))?;
    print_time(rt, "image checked", checked.saturating_sub(written))
}
