// What the program reads and writes, over the library's readers and the handles that print: no other crate of it names them. Three functions call
// them, `read_more`, `write_answer` and `tell`. Of such a call no contract can say which bytes it moves, so that what is asked stands before each: a
// text is written only where it is the answer, and to standard output only. The bytes held stay apart from what was told of them: they are lent.
#![tactic(auto)]

mod inputs;
mod outputs;

pub use inputs::{Input, bytes_of, has_failed, read_input};
pub use outputs::{Receipt, hand_on, tell_unread};
