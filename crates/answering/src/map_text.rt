// What the program prints, written into lent bytes: the line of a refusal, a map's first line, its rows and its end. Each writer takes a position
// and gives the position after what it wrote: two parameters, as in `formatting`. RULES, "Sheets".
ghost use Rattle.std.specs.Prelude.{◌≡◌, [], ◌∷◌, ◌+◌, ◌*◌, ◌≤◌, pos, length};
ghost use Rattle.model.specs.Forms.{write_form};
ghost use Rattle.model.specs.Printing.{refused_form, map_form, row_text, rows_text, map_text};
ghost use Rattle.sheet_text.specs.Forms.{marks, weight};
ghost use Rattle.formatting.specs.Puts.{Put};

use formatting::{put_bytes, put_form};

// A line that says one number.
fn put_line(out: &mut [u8], at: usize, form: &[u8], n: usize) -> usize
    requires sizes { (n ≤ 256) × (marks form.now ≡ 1) × (at + weight form.now ≤ length out.old) }
    ensures wrote { Put out.old out.new at result (write_form form.now (pos n ∷ [])) }
    ensures bound { result ≤ at + weight form.now }
{
    put_form(out, at, form, &[n as i32])
}

#[tactic(auto, unfolding(model::specs::Forms::marks, sheet_text::specs::Forms::weight, model::specs::Printing::refused_form))]
pub fn put_refusal(out: &mut [u8], at: usize, refusal: usize) -> usize
    requires small { refusal ≤ 256 }
    requires space { at + 19 ≤ length out.old }
    ensures wrote { Put out.old out.new at result (write_form refused_form (pos refusal ∷ [])) }
    ensures bound { result ≤ at + 19 }
{
    put_line(out, at, b"(refused #)\n", refusal)
}

// The first line of a map of n cells a side.
#[tactic(auto, unfolding(model::specs::Forms::marks, sheet_text::specs::Forms::weight, model::specs::Printing::map_form))]
fn put_head(out: &mut [u8], at: usize, n: usize) -> usize
    requires small { n ≤ 256 }
    requires space { at + 14 ≤ length out.old }
    ensures wrote { Put out.old out.new at result (write_form map_form (pos n ∷ [])) }
    ensures bound { result ≤ at + 14 }
{
    put_line(out, at, b"(map #\n", n)
}

fn put_row(out: &mut [u8], at: usize, row: &[u8]) -> usize
    requires space { at + length row.now + 7 ≤ length out.old }
    ensures wrote { Put out.old out.new at result (row_text row.now) }
{
    let a = put_bytes(out, at, b"(row ");
    let b = put_bytes(out, a, row);
    put_bytes(out, b, b")\n")
}

// The lines of the rows of a map of n cells a side.
fn put_rows(out: &mut [u8], at: usize, cells: &[u8], n: usize) -> usize
    requires sizes { (n ≤ 256) × (n * n ≤ length cells.now) × (at + n * (n + 7) ≤ length out.old) }
    ensures wrote { Put out.old out.new at result (rows_text n n cells.now) }
    ensures bound { result ≡ at + n * (n + 7) }
{
    let mut next = at;
    for j in 0..n {
        let row = &cells[j * n..j * n + n];
        next = put_row(out, next, row);
    }
    next
}

// A whole map of n cells a side, from the front of `out`.
pub fn put_map(out: &mut [u8], cells: &[u8], n: usize) -> usize
    requires sizes { (n ≤ 256) × (n * n ≤ length cells.now) × (67344 ≤ length out.old) }
    ensures wrote { Put out.old out.new 0 result (map_text n cells.now) }
    ensures bound { result ≤ 67344 }
{
    let a = put_head(out, 0, n);
    let b = put_rows(out, a, cells, n);
    put_bytes(out, b, b")\n")
}
