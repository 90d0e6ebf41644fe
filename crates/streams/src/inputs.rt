// An input read piece after piece.
ghost use Rattle.std.specs.Prelude.{◌≡◌, ◌≤◌, length};
ghost use Rattle.std.specs.Counts.{IsPrefixLen};
ghost use Rattle.streams.specs.Reading.{goes_on, has_failed, ReadOn, Came};

use std::io::Read;

// What the reads so far say: there may be more, the last one gave none, or it failed.
#[derive(Clone, Copy)]
enum State {
    Open,
    Ended,
    Failed,
}

// What was read of an input: how many bytes of it are held, and whether there is more. The fields are private, so that only this file makes one.
#[derive(Clone, Copy)]
pub struct Input {
    count: usize,
    state: State,
}

impl Input {
    // Whether there is more to read: the last read gave something, and there is room.
    fn goes_on(self, room: usize) -> bool
        ensures more { result ≡ goes_on room self }
    {
        matches!(self.state, State::Open) && self.count < room
    }
}

// How many bytes are held.
pub fn bytes_of(input: Input) -> usize
    ensures count { result ≡ input.count }
{
    input.count
}

// Whether a read failed before the input ended or the memory was full.
pub fn has_failed(input: Input) -> bool
    ensures failed { result ≡ has_failed input }
{
    matches!(input.state, State::Failed)
}

// Reads once, behind the bytes that are held. A read that a signal breaks off before it has a byte counts as failed.
fn read_more<R: Read>(reader: &mut R, held: &mut [u8], input: Input) -> Input
    requires within { input.count ≤ length held.old }
    ensures read { ReadOn held.old held.new input result }
{
    let at = input.count;
    match reader.read(&mut held[at..]) {
        Ok(0) => Input {
            count: at,
            state: State::Ended,
        },
        Ok(n) => Input {
            count: at + n,
            state: State::Open,
        },
        Err(_) => Input {
            count: at,
            state: State::Failed,
        },
    }
}

// Reads an input from its front, piece after piece, until it ends, a read fails or the memory lent is full.
pub fn read_input<R: Read>(reader: &mut R, held: &mut [u8]) -> Input
    ensures counted { IsPrefixLen result.count held.new }
    ensures came { Came held.new result }
{
    let mut input = Input {
        count: 0,
        state: State::Open,
    };
    // a `while`: how many reads it takes is known only as they answer
    while input.goes_on(held.len()) {
        input = read_more(reader, held, input);
    }
    input
}
