// The calls that write a table's files, a viewer's too, and read them, count one, join a list of findings with it, and salvage an old file.
ghost use Rattle.std.specs.Prelude.{◌≡◌, ◌≤◌, length};
ghost use Rattle.writers.specs.Files.{output_after, write_full_of, write_reduced_of};
ghost use Rattle.readers.specs.Readers as reader;
ghost use Rattle.salvage.specs.Salvage.{salvage_after, salvage_of};
ghost use Rattle.tally.specs.Count.{count_of};
ghost use Rattle.findings.specs.Findings.{join_after, join_of};
ghost use Rattle.viewer.specs.Viewer.{write_off_of, write_obj_of};
ghost use Rattle.census_text.specs.Census as spec;
ghost use Rattle.census_text.specs.Census.{put, census_of, text_of, read_input_of};

use crate::outcomes::{give_bytes, give_line};
use lattice::{DONE, number_told};
use tally::COUNTS;

// Writes the full file, or 1, 13; written: its bytes, 0 if refused.
#[unsafe(no_mangle)]
pub extern "C" fn fb_write_full(table: &[u8], out: &mut [u8], written: &mut u64) -> u8
    ensures { output_after result written.new out.new ≡ write_full_of table.now out.old }
{
    give_bytes(writers::write_full(table, out), written)
}

// Writes the reduced file, or 1, 13; written: its bytes, 0 if refused.
#[unsafe(no_mangle)]
pub extern "C" fn fb_write_reduced(table: &[u8], out: &mut [u8], written: &mut u64) -> u8
    ensures { output_after result written.new out.new ≡ write_reduced_of table.now out.old }
{
    give_bytes(writers::write_reduced(table, out), written)
}

// Reads a full file into the table, or 1, 9, 10, 8, 11; line: the one at fault, else 0.
#[unsafe(no_mangle)]
pub extern "C" fn fb_read_full(
    table: &mut [u8],
    scratch: &mut [u8],
    file: &[u8],
    line: &mut u64,
) -> u8
    ensures { reader.tables_after result line.new table.new scratch.new
        ≡ reader.read_full_of table.old scratch.old file.now }
{
    give_line(readers::read_full(table, scratch, file), line)
}

// Reads a reduced file into the table, or 1, 9, 10, 8, 11, 12; line: the one at fault, else 0.
#[unsafe(no_mangle)]
pub extern "C" fn fb_read_reduced(
    table: &mut [u8],
    scratch: &mut [u8],
    file: &[u8],
    line: &mut u64,
) -> u8
    ensures { reader.tables_after result line.new table.new scratch.new
        ≡ reader.read_reduced_of table.old scratch.old file.now }
{
    give_line(readers::read_reduced(table, scratch, file), line)
}

// Writes what the census program writes for an input, or 13; the number is the one in the text. written: its bytes, 0 for 13. 128 bytes always suffice.
#[unsafe(no_mangle)]
pub extern "C" fn fb_census(
    input: &[u8],
    table: &mut [u8],
    scratch: &mut [u8],
    out: &mut [u8],
    written: &mut u64,
) -> u8
    ensures answer { spec.result (put result written.new out.new) table.new scratch.new
        ≡ census_of input.now table.old scratch.old out.old }
    ensures text_bound { length (text_of (read_input_of table.old scratch.old input.now)) ≤ 128 }
{
    let census = census_text::census(input, table, scratch, out);
    *written = census.written;
    number_told(census.outcome)
}

// The census's numbers of a table, V E F d0 d3 d4 d5 d6; or 1, and all zeros.
#[unsafe(no_mangle)]
pub extern "C" fn fb_counts(table: &[u8], numbers: &mut [u32; COUNTS]) -> u8
    ensures value { result ≡ (count_of table.now).number }
    ensures numbers_after { numbers.new ≡ (count_of table.now).counted }
{
    let counted = tally::count(table);
    *numbers = tally::row(counted);
    match counted {
        Ok(_) => DONE,
        Err(why) => why.number(),
    }
}

// Writes the findings list joined with the plan, or 1, 15, 13; line: the malformed line, else 0; written: its bytes, 0 if refused.
#[unsafe(no_mangle)]
pub extern "C" fn fb_findings(
    table: &[u8],
    list: &[u8],
    out: &mut [u8],
    line: &mut u64,
    written: &mut u64,
) -> u8
    ensures { join_after result line.new written.new out.new ≡ join_of table.now list.now out.old }
{
    match findings::join(table, list, out) {
        Ok(bytes) => {
            *line = 0;
            *written = bytes;
            DONE
        }
        Err(fault) => {
            *line = fault.line;
            *written = 0;
            fault.why.number()
        }
    }
}

// Writes the OFF file, or 1, 7, 13; written: its bytes, 0 if refused.
#[unsafe(no_mangle)]
pub extern "C" fn fb_write_off(table: &[u8], out: &mut [u8], written: &mut u64) -> u8
    ensures { output_after result written.new out.new ≡ write_off_of table.now out.old }
{
    give_bytes(viewer::write_off(table, out), written)
}

// Writes the OBJ file, or 1, 7, 13; written: its bytes, 0 if refused.
#[unsafe(no_mangle)]
pub extern "C" fn fb_write_obj(table: &[u8], out: &mut [u8], written: &mut u64) -> u8
    ensures { output_after result written.new out.new ≡ write_obj_of table.now out.old }
{
    give_bytes(viewer::write_obj(table, out), written)
}

// Salvages an old file, or 1, 20, 8, 11, 13; written, changed: the bytes of the full file and of the list of changes, 0 if refused.
#[unsafe(no_mangle)]
pub extern "C" fn fb_salvage(
    table: &mut [u8],
    scratch: &mut [u8],
    file: &[u8],
    out: &mut [u8],
    changes: &mut [u8],
    written: &mut u64,
    changed: &mut u64,
) -> u8
    ensures { salvage_after result written.new changed.new table.new scratch.new out.new changes.new
        ≡ salvage_of table.old scratch.old file.now out.old changes.old }
{
    match salvage::salvage(table, scratch, file, out, changes) {
        Ok(salvaged) => {
            *written = salvaged.written;
            *changed = salvaged.changed;
            DONE
        }
        Err(why) => {
            *written = 0;
            *changed = 0;
            why.number()
        }
    }
}
