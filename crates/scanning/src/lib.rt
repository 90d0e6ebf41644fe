// Reads numbers and forms' text. Each reader takes the bytes and a position, and says what stands there and where the next one starts.
#![tactic(auto)]

ghost use Rattle.std.specs.Prelude.{◌≡◌, [], ◌≤◌, length, take, drop, slice_get, IfSome};
ghost use Rattle.model.specs.Numbers.{natural, number};
ghost use Rattle.model.specs.Forms.{read_form};
ghost use Rattle.model.specs.Sheets.{fit};
ghost use Rattle.sheet_text.specs.Forms.{marks};
ghost use Rattle.scanning.specs.Scanned.{digit_of, found, line_found};

// What a reader finds, and where the next thing starts.
#[derive(Clone, Copy)]
pub struct Scanned<T> {
    pub value: T,
    pub next: usize,
}

// The byte at i.
pub fn byte_at(s: &[u8], i: usize) -> Option<u8>
    ensures answer { result ≡ slice_get s.now i }
{
    s.get(i).copied()
}

// The digit at i.
#[tactic(auto, using(crate::proofs::Numbers::digit_by), unfolding(model::specs::Bytes::digit))]
fn digit_at(s: &[u8], i: usize) -> Option<u32>
    ensures answer { result ≡ digit_of (drop i s.now) }
{
    match byte_at(s, i)? {
        b @ b'0'..=b'9' => Some(u32::from(b - b'0')),
        _ => None,
    }
}

// One digit that is no 0, and at most six more.
#[tactic(auto, using(crate::proofs::Numbers::digits))]
pub fn natural_at(s: &[u8], at: usize) -> Option<Scanned<u32>>
    ensures answer { found s.now result ≡ natural (drop at s.now) }
    ensures within { IfSome result (λ r. r.next ≤ length s.now) }
{
    let d = digit_at(s, at)?;
    if d == 0 {
        return None;
    }
    let mut value = d;
    let mut next = at + 1;
    for _ in 0..6u32 {
        let Some(e) = digit_at(s, next) else {
            return Some(Scanned { value, next });
        };
        value = value * 10 + e;
        next += 1;
    }
    Some(Scanned { value, next })
}

// A lone 0, or a natural number with or without a minus before it.
#[tactic(auto, using(crate::proofs::Numbers::number_by, crate::proofs::Numbers::natural_small))]
pub fn number_at(s: &[u8], at: usize) -> Option<Scanned<i32>>
    ensures answer { found s.now result ≡ number (drop at s.now) }
    ensures within { IfSome result (λ r. r.next ≤ length s.now) }
{
    match byte_at(s, at)? {
        b'0' => Some(Scanned {
            value: 0,
            next: at + 1,
        }),
        b'-' => {
            let n = natural_at(s, at + 1)?;
            Some(Scanned {
                value: -(n.value as i32),
                next: n.next,
            })
        }
        _ => {
            let n = natural_at(s, at)?;
            Some(Scanned {
                value: n.value as i32,
                next: n.next,
            })
        }
    }
}

// A form's text, its bytes with a number for each #: its numbers, in order, and zeros past them. Sheet and form are two texts.
#[tactic(auto, using(crate::proofs::Forms::steps))]
pub fn form_at(s: &[u8], at: usize, form: &[u8]) -> Option<Scanned<[i32; 8]>>
    requires start { at ≤ length s.now }
    requires few { marks form.now ≤ 8 }
    ensures answer { line_found form.now s.now result ≡ read_form form.now [] (drop at s.now) }
    ensures within { IfSome result (λ r. (r.next ≤ length s.now) × (length r.value ≡ 8)) }
    ensures zeros { IfSome result (λ r. fit 8 (take (marks form.now) r.value) ≡ r.value) }
{
    let mut value = [0; 8];
    let mut count = 0;
    let mut next = at;
    for f in form {
        if *f == b'#' {
            let n = number_at(s, next)?;
            value[count] = n.value;
            count += 1;
            next = n.next;
        } else if byte_at(s, next) == Some(*f) {
            next += 1;
        } else {
            return None;
        }
    }
    Some(Scanned { value, next })
}
