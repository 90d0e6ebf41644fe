// Reads a job sheet, line by line. Each reader takes the sheet and a position, and says what stands there and where the next line starts.
#![tactic(auto)]

ghost use Rattle.std.specs.Prelude.{◌≡◌, [], ◌∷◌, ◌+◌, ◌≤◌, length, drop};
ghost use Rattle.model.specs.Forms.{read_form};
ghost use Rattle.model.specs.Sheets.{end_form, longest};
ghost use Rattle.model.specs.Answers.{as_read};
ghost use Rattle.model.specs.Entries as entries;
ghost use Rattle.sheet_text.specs.Forms.{marks};
ghost use Rattle.reading.specs.Progress.{closed, keep, OptionalRead, EdgeSays, EdgesRead, HeadSays, job_by};

use judging::judge;
use model::{Job, Refusal};
use scanning::{Scanned, form_at};

// An edge: its mark, and its numbers with zeros past them.
#[derive(Clone, Copy)]
pub struct Edge {
    pub mark: i32,
    pub places: [i32; 8],
}

// The edges of a sheet: how many, and the numbers and the marks of the first 64, as a job has them in fixed memory.
#[derive(Clone, Copy)]
pub struct Edges {
    pub count: usize,
    pub places: [i32; 512],
    pub marks: [i32; 64],
}

impl Edges {
    // Puts one more edge in place. 64 edges are kept.
    fn keep(&mut self, edge: Edge)
        requires few { self.old.count ≤ longest }
        ensures count { self.new.count ≡ self.old.count + 1 }
        ensures places { self.new.places ≡ keep 8 self.old.places self.old.count edge.places }
        ensures marks { self.new.marks ≡ keep 1 self.old.marks self.old.count (edge.mark ∷ []) }
    {
        // a test each, so that a wrong bound in one of them loses no more than that one keeps
        let placed = self.count < 64;
        if placed {
            let base = self.count * 8;
            self.places[base..base + 8].copy_from_slice(&edge.places);
        }
        let marked = self.count < 64;
        if marked {
            self.marks[self.count] = edge.mark;
        }
        self.count += 1;
    }
}

// The numbers of the lines before the edges.
#[derive(Clone, Copy)]
pub struct Head {
    pub x: i32,
    pub y: i32,
    pub n: i32,
    pub m: i32,
    pub reach: i32,
    pub grain: i32,
}

// A line of one number that may be left out, and then says `other`.
fn optional_at(s: &[u8], at: usize, form: &[u8], other: i32) -> Scanned<i32>
    requires start { at ≤ length s.now }
    requires one { marks form.now ≡ 1 }
    ensures answer { OptionalRead form.now other s.now at result }
{
    match form_at(s, at, form) {
        Some(line) => Scanned {
            value: line.value[0],
            next: line.next,
        },
        None => Scanned {
            value: other,
            next: at,
        },
    }
}

// The last line is here, and nothing after it.
fn end_at(s: &[u8], at: usize) -> bool
    requires start { at ≤ length s.now }
    ensures answer { result ≡ closed (read_form end_form [] (drop at s.now)) }
{
    match form_at(s, at, b")\n") {
        Some(end) => end.next == s.len(),
        None => false,
    }
}

// An edge's line, a cubic's or, where that is not there, a line's.
fn edge_at(s: &[u8], at: usize) -> Option<Scanned<Edge>>
    requires start { at ≤ length s.now }
    ensures answer { EdgeSays s.now at result }
{
    if let Some(cubic) = form_at(s, at, b"(edge (# #) (# #) (# #) (# #))\n") {
        let places = cubic.value;
        return Some(Scanned {
            value: Edge { mark: 0, places },
            next: cubic.next,
        });
    }
    let line = form_at(s, at, b"(line (# #) (# #))\n")?;
    let places = line.value;
    Some(Scanned {
        value: Edge { mark: 1, places },
        next: line.next,
    })
}

// The edges' lines, as many as there are.
fn edges_at(s: &[u8], at: usize) -> Scanned<Edges>
    requires start { at ≤ length s.now }
    requires short { length s.now ≤ longest }
    ensures answer { EdgesRead s.now at result }
{
    let mut value = Edges {
        count: 0,
        places: [0; 512],
        marks: [0; 64],
    };
    let mut next = at;
    // a `while`: where the next line starts is known only once this one is read
    while let Some(edge) = edge_at(s, next) {
        value.keep(edge.value);
        next = edge.next;
    }
    Scanned { value, next }
}

// The lines before the edges, each with its form: a further kind of line is one more step here.
fn head_at(s: &[u8]) -> Option<Scanned<Head>>
    requires short { length s.now ≤ longest }
    ensures answer { HeadSays s.now result }
{
    let job = form_at(s, 0, b"(job\n")?;
    let plate = form_at(s, job.next, b"(plate # # #)\n")?;
    let cell = form_at(s, plate.next, b"(cell #)\n")?;
    let reach = form_at(s, cell.next, b"(reach #)\n")?;
    let grain = optional_at(s, reach.next, b"(grain #)\n", 10);
    let value = Head {
        x: plate.value[0],
        y: plate.value[1],
        n: plate.value[2],
        m: cell.value[0],
        reach: reach.value[0],
        grain: grain.value,
    };
    Some(Scanned {
        value,
        next: grain.next,
    })
}

fn job_by(head: Head, edges: Edges) -> Job
    ensures answer { result ≡ job_by head edges.count edges.places edges.marks }
{
    let Head {
        x,
        y,
        n,
        m,
        reach,
        grain,
    } = head;
    let Edges {
        count,
        places,
        marks,
    } = edges;
    Job {
        x,
        y,
        n,
        m,
        reach,
        grain,
        count,
        places,
        marks,
    }
}

// Reads a job sheet.
pub fn read(sheet: &[u8]) -> Result<Job, Refusal>
    ensures answer { as_read result ≡ entries.read sheet.now }
{
    if sheet.len() > 8192 {
        return Err(Refusal::Form);
    }
    let head = head_at(sheet).ok_or(Refusal::Form)?;
    let edges = edges_at(sheet, head.next);
    if !end_at(sheet, edges.next) {
        return Err(Refusal::Form);
    }
    let job = job_by(head.value, edges.value);
    judge(job)?;
    Ok(job)
}
