// What the program writes. Two functions call the handles that print, and each asks for what it is to be given: the answer and standard output, a
// line of two and standard error.
ghost use Rattle.std.specs.Prelude.{◌≡◌, true, false, pos, length};
ghost use Rattle.streams.specs.Reading.{has_failed, Came};
ghost use Rattle.streams.specs.Inputs.{Answers, Message};
ghost use Rattle.streams.specs.Outputs.{descriptor};

use crate::inputs::Input;
use std::str;

// Standard output and standard error, by their descriptors.
#[derive(Clone, Copy)]
enum Stream {
    Output = 1,
    Errors = 2,
}

// The descriptor. Nothing but the two checks below reads it.
impl From<Stream> for i32 {
    ghost from_gives = { λ stream fd. fd ≡ descriptor stream };

    fn from(stream: Stream) -> i32 {
        stream as i32
    }
}

// That an answer was handed on, and how many bytes it has; or that none was, and standard error tells why. The field is private, so that only
// this file makes one.
#[derive(Drop)]
pub struct Receipt {
    bytes: usize,
}

// Writes the answer to an input that was read with no failure, and says whether all was taken.
fn write_answer(
    rt: &(impl Print + Eprint),
    stream: Stream,
    text: &[u8],
    held: &[u8],
    input: Input,
) -> bool
    requires standard_output { descriptor stream ≡ pos 1 }
    requires came { Came held.now input }
    requires read { has_failed input ≡ false }
    requires answer { Answers held.now input.count text.now }
{
    let fd = i32::from(stream);
    prove!(fd == 1);
    rt.write_all(text).is_ok()
}

// Tells what failed. Standard error takes text, which both lines are.
fn tell(rt: &(impl Print + Eprint), stream: Stream, line: &[u8])
    requires standard_error { descriptor stream ≡ pos 2 }
    requires message { Message line.now }
{
    let fd = i32::from(stream);
    prove!(fd == 2);
    if let Ok(text) = str::from_utf8(line) {
        let _told = rt.eprint(text);
    }
}

// Hands on the answer to an input that was read with no failure, and tells where it could not be written.
pub fn hand_on(rt: &(impl Print + Eprint), text: &[u8], held: &[u8], input: Input) -> Receipt
    requires came { Came held.now input }
    requires read { has_failed input ≡ false }
    requires answer { Answers held.now input.count text.now }
    ensures bytes { result.bytes ≡ length text.now }
{
    let written = write_answer(rt, Stream::Output, text, held, input);
    if !written {
        tell(
            rt,
            Stream::Errors,
            b"clearmap: the answer could not be written\n",
        );
    }
    Receipt { bytes: text.len() }
}

// Tells that an input was not read to its end, and only of such a one.
pub fn tell_unread(rt: &(impl Print + Eprint), held: &[u8], input: Input) -> Receipt
    requires came { Came held.now input }
    requires unread { has_failed input ≡ true }
    ensures none { result.bytes ≡ 0 }
{
    tell(
        rt,
        Stream::Errors,
        b"clearmap: the input could not be read to its end\n",
    );
    Receipt { bytes: 0 }
}
