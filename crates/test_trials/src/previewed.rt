// Shows the inputs in data/preview as `preview` does, each after a line with its name. examples/preview/cases.py writes them.
use preview_run::Asked;
use std::fs::File;
use std::io;
use std::rt::Files;

fn case(rt: &(impl Files + Print), name: &str, asked: Asked) -> io::Result<()> {
    println!(rt; "= {name}")?;
    match File::open(rt, name) {
        Ok(mut file) => preview_run::show(rt, &mut file, asked),
        Err(_) => rt.print("not opened\n"),
    }
}

// All pages, without ANSI sequences, with ambiguous glyphs read narrow.
const PLAIN: Asked = Asked {
    wide: false,
    ansi: false,
    pages: None,
};

fn plain(rt: &(impl Files + Print), name: &str) -> io::Result<()> {
    case(rt, name, PLAIN)
}

// Shows all pages with ambiguous glyphs read wide.
fn wide(rt: &(impl Files + Print), name: &str) -> io::Result<()> {
    case(
        rt,
        name,
        Asked {
            wide: true,
            ..PLAIN
        },
    )
}

// Shows all pages with ANSI sequences.
fn coloured(rt: &(impl Files + Print), name: &str) -> io::Result<()> {
    case(
        rt,
        name,
        Asked {
            ansi: true,
            ..PLAIN
        },
    )
}

// Shows one page without ANSI sequences.
fn one_page(rt: &(impl Files + Print), name: &str, page: u64) -> io::Result<()> {
    let pages = Some(page);
    case(rt, name, Asked { pages, ..PLAIN })
}

fn shown(rt: &(impl Files + Print)) -> io::Result<()> {
    plain(rt, "preview/01_evening")?;
    coloured(rt, "preview/01_evening")?;
    one_page(rt, "preview/01_evening", 1)?;
    one_page(rt, "preview/01_evening", 2)?;
    plain(rt, "preview/02_wide")?; // symbols of width 2, in the text and in a title
    coloured(rt, "preview/02_wide")?;
    plain(rt, "preview/03_symbols")?; // at the bounds of the symbols shown, and of each UTF-8 length
    coloured(rt, "preview/04_styles")?; // none, a foreground, all nine modifiers, a background
    plain(rt, "preview/05_unwrapped")?; // scrolled to the right by 3
    plain(rt, "preview/06_empty_inner")?;
    plain(rt, "preview/07_no_text")?;
    plain(rt, "preview/08_off_the_screen")?;
    plain(rt, "preview/09_scrolled")?; // from line 2 on
    plain(rt, "preview/10_scrolled_past")?; // from line 65,535 on
    plain(rt, "preview/11_shadow_before")?; // offsets below 0
    coloured(rt, "preview/12_widest")?; // 512 columns
    plain(rt, "preview/13_ambiguous")?; // in the text and in a title, read narrow
    wide(rt, "preview/13_ambiguous")?; // and read wide
    plain(rt, "preview/14_half_glyph") // a wide glyph that would cover the border
}

fn bad(rt: &(impl Files + Print)) -> io::Result<()> {
    plain(rt, "preview/20_no_bytes")?;
    plain(rt, "preview/21_three_bytes")?;
    plain(rt, "preview/22_other_mark")?;
    plain(rt, "preview/23_opening_cut")?;
    plain(rt, "preview/24_records_cut")?;
    plain(rt, "preview/25_one_byte_after")?;
    plain(rt, "preview/26_styles_257")?;
    plain(rt, "preview/27_titles_8193")?;
    plain(rt, "preview/28_text_24577")?;
    plain(rt, "preview/29_bytes_131073")
}

fn refused(rt: &(impl Files + Print)) -> io::Result<()> {
    plain(rt, "preview/30_columns_0")?;
    plain(rt, "preview/31_columns_513")?;
    plain(rt, "preview/32_styles_65")?;
    plain(rt, "preview/33_text_16385")?;
    plain(rt, "preview/34_glyph_first")?;
    plain(rt, "preview/35_titles_17")?;
    plain(rt, "preview/36_style_5")?;
    plain(rt, "preview/37_symbol")?;
    plain(rt, "preview/38_shadow_3")?;
    plain(rt, "preview/39_wrap_3")
}

pub fn preview_all(rt: &(impl Files + Print)) -> io::Result<()> {
    shown(rt)?;
    bad(rt)?;
    refused(rt)
}
