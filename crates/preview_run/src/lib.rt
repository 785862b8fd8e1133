// The program `preview`: reads a notice in packed form, draws it, and prints its pages and the tally.
#![tactic(auto)]

mod arguments;
mod showing;

use arguments::Request;
use read_input::read_full;
use std::fs::File;
use std::io;
use std::io::Read;
use std::rt::{Env, Files};

// Options: whether ambiguous glyphs are read wide, whether to print escape sequences for colours and modifiers, and the page to show,
// if not all are.
#[derive(Clone, Copy)]
pub struct Asked {
    pub wide: bool,
    pub ansi: bool,
    pub pages: Option<u64>,
}

// Shows the notice read from an input. Reads one byte more than is accepted, so that longer inputs are noticed.
pub fn show(rt: &impl Print, input: &mut impl Read, asked: Asked) -> io::Result<()> {
    let mut bytes = [0u8; 131073];
    let mut styles = [0u64; 256];
    let mut titles = [0u32; 8192];
    let mut text = [0u32; 24576];
    let length = read_full(input, &mut bytes)?;
    showing::show_input(
        rt,
        &bytes[..length],
        asked,
        &mut styles,
        &mut titles,
        &mut text,
    )
}

// Opens the file named by the first argument, if it can be opened. A name that isn't UTF-8 can't.
fn open<R: Env + Files>(rt: &R) -> Option<R::File> {
    let mut path = [0u8; 4096];
    let length = rt.arg(1, &mut path).ok()?;
    let name = str::from_utf8(&path[..length]).ok()?;
    File::open(rt, name).ok()
}

// Shows the notice in the file named by the first argument.
fn show_file(rt: &(impl Env + Files + Print), asked: Asked) -> io::Result<()> {
    match open(rt) {
        Some(mut file) => show(rt, &mut file, asked),
        None => preview_messages::not_opened(rt),
    }
}

// Runs the program.
pub fn run(rt: &(impl Env + Files + Input + Print)) -> io::Result<()> {
    let Some(Request { asked, from_file }) = arguments::requested(rt) else {
        return preview_messages::usage(rt);
    };
    if from_file {
        return show_file(rt, asked);
    }
    show(rt, &mut rt.reader(), asked)
}
