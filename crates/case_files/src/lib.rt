// What the programs that run stored cases share: a case is an argument, the name of a file that holds a sheet.
#![tactic(auto)]

ghost use Rattle.std.specs.Prelude.{◌≡◌, [], ◌∷◌, T, pos, length, IfOk, IfErr};
ghost use Rattle.std.specs.Int.Signed.{non_neg};
ghost use Rattle.std.specs.Counts.{IsPrefixLen};
ghost use Rattle.model.specs.Forms.{write_form};
ghost use Rattle.model.specs.Printing.{refused_form};
ghost use Rattle.model.specs.Answers.{as_read};
ghost use Rattle.model.specs.Entries.{read};

use model::{Job, Refusal};
use std::env::FillError;
use std::rt::{Env, Files};
use std::{fs, io, str};

// The longest name that a file has, in bytes.
const PATH_MAX: usize = 4096;

// Shows some text. Text that cannot be written is left out.
pub fn show(rt: &impl Print, text: &[u8]) {
    let _ = rt.write_all(text);
}

// Whether there is a case i: argument 0 is the program's name, and the cases follow it.
pub fn has_case(rt: &impl Env, i: usize) -> bool {
    let mut name = [0u8; PATH_MAX];
    !matches!(rt.arg(i, &mut name), Err(FillError::NotPresent))
}

// Puts the name of case i to the front of `name`, and says how many bytes it has: 0 where there is none, or where it is too long.
fn put_name(rt: &impl Env, i: usize, name: &mut [u8]) -> usize
    ensures count { IsPrefixLen result name.new }
{
    rt.arg(i, name).unwrap_or(0)
}

// Opens the file of a name. A name that is no text has none.
fn open_named<R: Files>(rt: &R, name: &[u8]) -> io::Result<R::File> {
    let Ok(text) = str::from_utf8(name) else {
        return Err(io::Error::from(io::ErrorKind::InvalidFilename));
    };
    fs::open(rt, text)
}

// Prints the name of case i, a line, and opens its file. A file that cannot be opened is told where the answers stand, and gives the error.
pub fn open_case<R: Env + Files + Print>(rt: &R, i: usize) -> io::Result<R::File> {
    let mut name = [0u8; PATH_MAX];
    let k = put_name(rt, i, &mut name);
    show(rt, &name[..k]);
    show(rt, b"\n");
    let file = open_named(rt, &name[..k]);
    if file.is_err() {
        show(rt, b"(no file)\n");
    }
    file
}

// Prints the name of case i and reads its sheet to the front of `sheet`, as the program reads its input: how many bytes it has, or how many are
// there where it could not be read to its end.
pub fn read_case<R: Env + Files + Print>(rt: &R, i: usize, sheet: &mut [u8]) -> Result<usize, usize>
    ensures count { IfOk result (λ k. IsPrefixLen k sheet.new) }
    ensures failed { IfErr result (λ k. IsPrefixLen k sheet.new) }
{
    let Ok(mut file) = open_case(rt, i) else {
        return Err(0);
    };
    let input = streams::read_input(&mut file, sheet);
    let count = streams::bytes_of(input);
    if streams::has_failed(input) {
        Err(count)
    } else {
        Ok(count)
    }
}

// Hands on the line of a refusal, and nothing else, and says how many bytes it has.
fn hand_refusal(rt: &impl Print, text: &[u8], refusal: u8) -> usize
    requires line { text.now ≡ write_form refused_form (pos refusal ∷ []) }
    ensures bytes { result ≡ length text.now }
{
    show(rt, text);
    text.len()
}

// Shows the line of a refusal's number, whichever it is, and says how many bytes it has.
pub fn show_refusal(rt: &impl Print, refusal: u8) -> usize
    ensures bytes { result ≡ length (write_form refused_form (pos refusal ∷ [])) }
{
    let mut out = [0u8; 19];
    let end = answering::put_refused(refusal, &mut out);
    hand_refusal(rt, &out[..end], refusal)
}

// Shows the refusal that reading a sheet gives, 0 where it gives none, and nothing else, and says how many bytes its line has.
pub fn show_refused(rt: &impl Print, got: Result<Job, Refusal>, sheet: &[u8]) -> usize
    requires answer { as_read got ≡ read sheet.now }
    ensures bytes { result ≡ length (write_form refused_form (pos (as_read got).refusal ∷ [])) }
{
    match got {
        Ok(_) => show_refusal(rt, 0),
        Err(refusal) => show_refusal(rt, u8::from(refusal)),
    }
}

// Hands each case's job on in turn, and shows the refusal of a sheet that has none.
pub fn each_job<R: Env + Files + Print, F: FnMut(Job)>(rt: &R, mut visit: F)
    requires { F.IsAlwaysCallable visit }
{
    for i in 1..usize::MAX {
        if !has_case(rt, i) {
            break;
        }
        let mut sheet = [0; 8193];
        if let Ok(k) = read_case(rt, i, &mut sheet) {
            let sheet = &sheet[..k];
            let got = clearance::read(sheet);
            match got {
                Ok(job) => visit(job),
                Err(_) => {
                    show_refused(rt, got, sheet);
                }
            }
        }
    }
}

// ---- what the programs that ask for points share

// A bound as it is printed. No bound is negative; a negative one would show as a number that no bound reaches.
pub fn printable(bound: i64) -> u64
    ensures same { T (non_neg bound) → pos result ≡ bound }
{
    u64::try_from(bound).unwrap_or(u64::MAX)
}

// Shows some text and a number right behind it.
pub fn show_number(rt: &impl Print, before: &[u8], n: u64) {
    show(rt, before);
    let _ = rt.print(n);
}
