// Runs `listlines` on the inputs in data/list, each after a line with its name.
//
// The comment beside a case gives its limit, whether it trims, and its records: |n is a head of alignment n, `_` a space, W a
// glyph of width 2, 6 one of width 6, 7 an ambiguous one, Z a zero-width solid, z a zero-width space, any other letter a glyph of width 1.
use std::fs::File;
use std::io;
use std::rt::Files;

fn case(rt: &(impl Files + Print), name: &str) -> io::Result<()> {
    println!(rt; "{name}")?;
    match File::open(rt, name) {
        Ok(mut file) => listlines_run::run(&mut file, &mut io::writer(rt)),
        Err(_) => rt.print("not opened\n"),
    }
}

fn wrapped(rt: &(impl Files + Print)) -> io::Result<()> {
    case(rt, "list/01_example")?; // 5, trims: |0___abc
    case(rt, "list/02_not_trimmed")?; // 5, keeps: |0___abc
    case(rt, "list/03_alignments")?; // 3, trims: |0ab_cd|1ef|2|3gh_ij
    case(rt, "list/04_wide_at_the_edge")?; // 3, trims: |0abW
    case(rt, "list/05_over_wide")?; // 1, trims: |0aWb
    case(rt, "list/06_zero_width")?; // 3, trims: |0ZzabcD
    case(rt, "list/07_spaces_dropped")?; // 4, trims: |0___aWWx
    case(rt, "list/08_spaces_kept")?; // 3, keeps: |0____
    case(rt, "list/09_spaces_trimmed")?; // 3, trims: |0____
    case(rt, "list/10_empty_line")?; // 3, trims: |0
    case(rt, "list/11_all_over_wide")?; // 5, trims: |066
    case(rt, "list/12_style_63") // 9, trims: |2a7, the glyphs of style 63; 7 is read narrow
}

fn at_the_bounds(rt: &(impl Files + Print)) -> io::Result<()> {
    case(rt, "list/13_empty_text")?; // 5, trims: no record
    case(rt, "list/14_limit_0")?; // 0, trims: |0abc
    case(rt, "list/15_limit_4096")?; // 4096, keeps: |1ab_cd
    case(rt, "list/16_records_4096") // 512, keeps: |0 and 4,095 times a
}

// Refused with 0: bytes are missing, even past 4,096 records, or the trim byte is above 1, whatever else is wrong.
fn incomplete(rt: &(impl Files + Print)) -> io::Result<()> {
    case(rt, "list/17_no_bytes")?;
    case(rt, "list/18_two_bytes")?;
    case(rt, "list/19_trim_2")?; // 5: |0abc
    case(rt, "list/20_trim_255")?; // 5: no record
    case(rt, "list/21_one_byte_after")?; // 5, trims: |0abc
    case(rt, "list/22_two_bytes_after")?; // 5, trims: |0abc
    case(rt, "list/23_three_bytes_after")?; // 5, trims: |0abc
    case(rt, "list/24_one_byte_after_none")?; // 5, trims: no record
    case(rt, "list/25_one_byte_after_4096")?; // 5, trims: |0 and 4,095 times a
    case(rt, "list/26_one_byte_after_4097")?; // 5, trims: |0 and 4,096 times a
    case(rt, "list/27_two_bytes_after_4098")?; // 5, trims: |0 and 4,097 times a
    case(rt, "list/28_three_bytes_after_6000")?; // 5, trims: |0 and 5,999 times a
    case(rt, "list/29_trim_2_of_4097")?; // 5: |0 and 4,096 times a
    case(rt, "list/30_trim_2_glyph_first") // 5: abc
}

// Refused with 3: over 4,096 records, whatever else is wrong.
fn too_many(rt: &(impl Files + Print)) -> io::Result<()> {
    case(rt, "list/31_records_4097")?; // 5, trims: |0 and 4,096 times a
    case(rt, "list/32_records_4098")?; // 5, trims: |0 and 4,097 times a
    case(rt, "list/33_records_6000")?; // 5, trims: |0 and 5,999 times a
    case(rt, "list/34_records_4097_glyph_first")?; // 5, trims: 4,097 times a
    case(rt, "list/35_records_4097_limit_4097") // 4097, trims: |0 and 4,096 times a
}

// Refused with 4 and 8, by the table of causes.
fn refused_by_the_table(rt: &(impl Files + Print)) -> io::Result<()> {
    case(rt, "list/36_glyph_first")?; // 5, trims: abc|0
    case(rt, "list/37_head_zeros")?; // 5, trims: |0, the lowest bit set
    case(rt, "list/38_head_position")?; // 5, trims: |0 of position 1
    case(rt, "list/39_later_head_position")?; // 5, trims: |0ab|3, the last of position 2
    case(rt, "list/40_glyph_first_limit_0")?; // 0, trims: abc
    case(rt, "list/41_glyph_first_limit_4097")?; // 4097, trims: abc
    case(rt, "list/42_limit_4097")?; // 4097, trims: |0abc
    case(rt, "list/43_limit_65535") // 65535, keeps: no record
}

pub fn list_all(rt: &(impl Files + Print)) -> io::Result<()> {
    wrapped(rt)?;
    at_the_bounds(rt)?;
    incomplete(rt)?;
    too_many(rt)?;
    refused_by_the_table(rt)?;
    // As many lines as records, which fills the list: 1, trims: 4,096 times |0
    case(rt, "list/44_lines_4096")
}
