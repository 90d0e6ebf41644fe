// Writes numbers and forms' text. Each writer takes the bytes lent and a position, and gives the position after what it wrote. The two are no
// struct: with methods of one, the proof of what the bytes lent hold after two calls was tried and stayed open.
#![tactic(auto)]

ghost use Rattle.std.specs.Prelude.{◌≡◌, [], ◌∷◌, ◌+◌, ◌≤◌, ◌<◌, length};
ghost use Rattle.model.specs.Numbers.{decimal, text};
ghost use Rattle.model.specs.Forms.{write_form};
ghost use Rattle.sheet_text.specs.Numbers.{Small};
ghost use Rattle.sheet_text.specs.Forms.{marks, weight, AllSmall};
ghost use Rattle.formatting.specs.Puts.{Put};

pub fn put_byte(out: &mut [u8], at: usize, b: u8) -> usize
    requires space { at < length out.old }
    ensures answer { Put out.old out.new at result (b ∷ []) }
{
    out[at] = b;
    at + 1
}

pub fn put_bytes(out: &mut [u8], at: usize, text: &[u8]) -> usize
    requires space { at + length text.now ≤ length out.old }
    ensures answer { Put out.old out.new at result text.now }
{
    let end = at + text.len();
    out[at..end].copy_from_slice(text);
    end
}

// By hand: Display would need a writer over the bytes lent, and for it the proof that stands here.
fn put_digits(out: &mut [u8], at: usize, n: u32) -> usize
    requires small { n < 10000000 }
    requires space { at + 7 ≤ length out.old }
    ensures answer { Put out.old out.new at result (decimal 7 n) }
{
    if n < 10 {
        return put_byte(out, at, b'0' + n as u8);
    }
    let next = put_digits(out, at, n / 10);
    put_byte(out, next, b'0' + (n % 10) as u8)
}

pub fn put_number(out: &mut [u8], at: usize, v: i32) -> usize
    requires small { Small v }
    requires space { at + 8 ≤ length out.old }
    ensures answer { Put out.old out.new at result (text v) }
{
    if v < 0 {
        let next = put_byte(out, at, b'-');
        put_digits(out, next, v.unsigned_abs())
    } else {
        put_digits(out, at, v.unsigned_abs())
    }
}

// A form's text: its bytes, with a number for each #.
pub fn put_form(out: &mut [u8], at: usize, form: &[u8], values: &[i32]) -> usize
    requires space { at + weight form.now ≤ length out.old }
    requires enough { marks form.now ≤ length values.now }
    requires small { AllSmall values.now }
    ensures answer { Put out.old out.new at result (write_form form.now values.now) }
    ensures bound { result ≤ at + weight form.now }
{
    let mut next = at;
    let mut k = 0;
    for f in form {
        if *f == b'#' {
            next = put_number(out, next, values[k]);
            k += 1;
        } else {
            next = put_byte(out, next, *f);
        }
    }
    next
}
