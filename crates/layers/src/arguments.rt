// The arguments of the program.
ghost use Rattle.std.specs.Prelude.{◌≤◌, length, IfSome};

use scan::classes::{is_text, starts_with};
use std::env::{Env, FillError};
use tokens::cut::Place;

/// The longest word that an option or a layer's name has, and a few bytes more.
const WORD: usize = 16;

/// A part of what is shown.
#[derive(Clone, Copy, Debug, PartialEq, Eq)]
pub(crate) enum Layer {
    Line,
    Marks,
    Notes,
    Bars,
    Why,
}

impl Layer {
    fn named(name: &[u8]) -> Option<Layer> {
        if is_text(name, b"line") {
            Some(Layer::Line)
        } else if is_text(name, b"marks") {
            Some(Layer::Marks)
        } else if is_text(name, b"notes") {
            Some(Layer::Notes)
        } else if is_text(name, b"bars") {
            Some(Layer::Bars)
        } else if is_text(name, b"why") {
            Some(Layer::Why)
        } else {
            None
        }
    }
}

/// What the arguments ask for.
#[derive(Clone, Copy)]
pub(crate) struct Options {
    pub help: bool,
    /// Each line of the input is a text.
    pub lines: bool,
    /// The one layer that is shown; all where it is none.
    pub layer: Option<Layer>,
    /// The place of the one letter that is explained; all where it is none.
    pub letter: Option<Place>,
    /// The number of the argument that is a text; the input where it is none.
    pub text: Option<usize>,
    /// The number of the first argument that is not understood.
    pub bad: Option<usize>,
}

/// What comes next: an option may have its value in the next argument.
// An enum: a step of its own for each would have to be handed out as a closure, which CI refuses.
#[derive(Clone, Copy)]
enum Next {
    Option,
    Layer,
    Letter,
    Text,
}

/// The place, from 1, that up to five digits stand for.
fn place_of(argument: &[u8]) -> Option<Place> {
    if 5 < argument.len() {
        return None;
    }
    let mut number: u32 = 0;
    // Digit by digit: `parse` takes a `+` too.
    for digit in argument {
        if !digit.is_ascii_digit() {
            return None;
        }
        number = number
            .saturating_mul(10)
            .saturating_add(u32::from(*digit - b'0'));
    }
    if number == 0 {
        None
    } else {
        Some(Place(number))
    }
}

/// Whether an argument looks like an option: two hyphens and three or more small letters, then
/// nothing or `=`.
fn looks_like_option(argument: &[u8]) -> bool {
    if !starts_with(argument, b"--") {
        return false;
    }
    let letters = argument
        .iter()
        .skip(2)
        .take_while(|byte| byte.is_ascii_lowercase())
        .count();
    3 <= letters
        && match argument.get(letters.saturating_add(2)) {
            Some(byte) => *byte == b'=',
            None => true,
        }
}

impl Options {
    fn new() -> Options {
        Options {
            help: false,
            lines: false,
            layer: None,
            letter: None,
            text: None,
            bad: None,
        }
    }

    fn refuse(&mut self, number: usize) {
        if self.bad.is_none() {
            self.bad = Some(number);
        }
    }

    /// A second text is not understood.
    fn take_text(&mut self, number: usize) {
        if self.text.is_none() {
            self.text = Some(number);
        } else {
            self.refuse(number);
        }
    }

    /// An argument where an option may stand; what comes next.
    fn take_option(&mut self, number: usize, argument: &[u8]) -> Next {
        if is_text(argument, b"--layer") {
            return Next::Layer;
        }
        if is_text(argument, b"--letter") {
            return Next::Letter;
        }
        if is_text(argument, b"--") {
            return Next::Text;
        }
        if is_text(argument, b"--help") {
            self.help = true;
        } else if is_text(argument, b"--lines") {
            self.lines = true;
        } else if looks_like_option(argument) {
            self.refuse(number);
        } else {
            self.take_text(number);
        }
        Next::Option
    }

    /// An argument, whose bytes are these where it is short; what comes next.
    fn take(&mut self, number: usize, argument: &[u8], next: Next) -> Next {
        match next {
            Next::Option => return self.take_option(number, argument),
            Next::Text => {
                self.take_text(number);
                return Next::Text;
            }
            Next::Layer => match Layer::named(argument) {
                Some(layer) => self.layer = Some(layer),
                None => self.refuse(number),
            },
            Next::Letter => match place_of(argument) {
                Some(letter) => {
                    self.layer = Some(Layer::Why);
                    self.letter = Some(letter);
                }
                None => self.refuse(number),
            },
        }
        Next::Option
    }

    /// Whether a layer is asked for.
    pub(crate) fn has(self, layer: Layer) -> bool {
        match self.layer {
            Some(only) => only == layer,
            None => true,
        }
    }
}

/// The options of the program's arguments; argument 0 is its name. A long argument is no option.
pub(crate) fn options_given(rt: &impl Env) -> Options {
    let mut options = Options::new();
    let mut next = Next::Option;
    // std has no count of the arguments: they end where there is none.
    for number in 1..usize::MAX {
        // std's `arg` fills a slice.
        let mut word = [0u8; WORD];
        match argument(rt, number, &mut word) {
            Some(size) => next = options.take(number, &word[..size], next),
            None => {
                if matches!(next, Next::Layer | Next::Letter) {
                    options.refuse(number);
                }
                break;
            }
        }
    }
    options
}

/// An argument, put into the buffer: its size, 0 for one that is longer than the buffer, none
/// behind the last.
// No error for a longer one: it is no option and no name, as an empty one isn't.
pub(crate) fn argument(rt: &impl Env, number: usize, buffer: &mut [u8]) -> Option<usize>
    ensures { IfSome result (λ size. size ≤ length buffer.new) }
{
    match rt.arg(number, buffer) {
        Ok(size) => Some(size),
        Err(FillError::TooLong) => Some(0),
        Err(FillError::NotPresent) => None,
    }
}
