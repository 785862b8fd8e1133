// Parses the program's arguments: a file, `wide`, `ansi`, and `page` with a number, each optional.
use crate::Asked;
use std::env::FillError;
use std::rt::Env;

// Meaning of an argument.
#[derive(Clone, Copy, PartialEq, Eq)]
enum Argument {
    Wide,
    Ansi,
    Page,
    Other,
}

impl From<&[u8]> for Argument {
    fn from(word: &[u8]) -> Argument {
        match word {
            b"wide" => Argument::Wide,
            b"ansi" => Argument::Ansi,
            b"page" => Argument::Page,
            _ => Argument::Other,
        }
    }
}

// What the arguments ask for: the options, and whether a file is named.
#[derive(Clone, Copy)]
pub struct Request {
    pub asked: Asked,
    pub from_file: bool,
}

// Returns argument `number`, counted from 1, if there is one. One of over 4,096 bytes is `Other`.
fn argument_at(rt: &impl Env, number: usize) -> Option<Argument> {
    let mut buffer = [0u8; 4096];
    match rt.arg(number, &mut buffer) {
        Ok(length) => Some(Argument::from(&buffer[..length])),
        Err(FillError::NotPresent) => None,
        Err(FillError::TooLong) => Some(Argument::Other),
    }
}

// Parses a decimal number below 1,000,000,000, without a sign.
fn numeral_of(digits: &[u8]) -> Option<u64> {
    let text = str::from_utf8(digits).ok()?;
    if text.starts_with('+') {
        return None;
    }
    text.parse::<u64>()
        .ok()
        .filter(|number| *number < 1000000000)
}

// Parses argument `number` as a decimal number.
fn number_at(rt: &impl Env, number: usize) -> Option<u64> {
    let mut buffer = [0u8; 4096];
    let length = rt.arg(number, &mut buffer).ok()?;
    numeral_of(&buffer[..length])
}

// Parses all arguments. Returns none if they are wrong.
pub fn requested(rt: &impl Env) -> Option<Request> {
    let from_file = argument_at(rt, 1) == Some(Argument::Other);
    let mut next = 1 + usize::from(from_file);
    let wide = argument_at(rt, next) == Some(Argument::Wide);
    next += usize::from(wide);
    let ansi = argument_at(rt, next) == Some(Argument::Ansi);
    next += usize::from(ansi);
    let mut pages = None;
    if argument_at(rt, next) == Some(Argument::Page) {
        pages = Some(number_at(rt, next + 1)?);
        next += 2;
    }
    if argument_at(rt, next).is_some() {
        return None;
    }
    let asked = Asked { wide, ansi, pages };
    Some(Request { asked, from_file })
}
