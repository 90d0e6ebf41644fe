// Table four: whether a job's map leaves its four clamps clear. A crate above the library: of the code below it calls the face alone, and a go is
// proved from the map's promise. RULES, "Clamps".
#![tactic(auto)]

ghost use Rattle.std.specs.Prelude.{◌≡◌, ◌↔◌, ◌≢◌, true, ℕ, ◌+◌, ◌*◌, ◌≤◌, ◌<◌, length, All, IsTrue, MatchOption, slice_index};
ghost use Rattle.model.specs.Plates.{columns};
ghost use Rattle.model.specs.Promises.{MapHolds};
ghost use Rattle.table_four.specs.declared.Placed.TheVariants.{Go};
ghost use Rattle.table_four.specs.Answers.{as_placed};
ghost use Rattle.table_four.specs.Table as table;
ghost use Rattle.table_four.specs.Promises.{GoMeans};
ghost use Rattle.table_four.specs.Places.{Within, four_in};
ghost use Rattle.table_four.specs.Stops.{FirstCell, FirstStop};

use model::{CLEAR, DOUBTFUL, INSIDE, Job, Refusal};

// A clamp, as the block of the map's cells that it covers: the column and the row of the lower left one, and how many cells it is wide and high.
#[derive(Clone, Copy)]
pub struct Clamp {
    pub column: usize,
    pub row: usize,
    pub columns: usize,
    pub rows: usize,
}

// A cell of the map, by column and row from 0.
#[derive(Clone, Copy)]
pub struct Cell {
    pub column: usize,
    pub row: usize,
}

// What stops the clamps: the first with a cell that is not C, by its number from 0, and its lowest, then leftmost such cell.
#[derive(Clone, Copy)]
pub struct Stop {
    pub clamp: usize,
    pub cell: Cell,
}

// What the clamps are answered.
#[derive(Clone, Copy)]
pub enum Placed {
    Go,
    Stopped(Stop),
}

fn clamp_at(numbers: [usize; 16], k: usize) -> Clamp
    requires four { (k < 4) × (length numbers ≡ 16) }
    ensures answer { result ≡ table.clamp_at numbers k }
{
    Clamp {
        column: numbers[4 * k],
        row: numbers[4 * k + 1],
        columns: numbers[4 * k + 2],
        rows: numbers[4 * k + 3],
    }
}

fn clamps_of(numbers: [usize; 16]) -> [Clamp; 4]
    requires all { length numbers ≡ 16 }
    ensures answer { result ≡ four_in numbers }
{
    [
        clamp_at(numbers, 0),
        clamp_at(numbers, 1),
        clamp_at(numbers, 2),
        clamp_at(numbers, 3),
    ]
}

// ---- on the plate

// Compared without a sum: any numbers will do.
fn lies(n: usize, begin: usize, count: usize) -> bool
    ensures answer { result ≡ table.lies n begin count }
{
    count >= 1 && begin < n && count <= n - begin
}

fn on_plate(n: usize, clamp: Clamp) -> bool
    ensures answer { result ≡ table.on_plate n clamp }
{
    lies(n, clamp.column, clamp.columns) && lies(n, clamp.row, clamp.rows)
}

fn all_on_plate(n: usize, clamps: &[Clamp]) -> bool
    ensures answer { IsTrue result ↔ All (λ c. table.on_plate n c ≡ true) clamps.now }
{
    clamps.iter().all(|clamp| on_plate(n, *clamp))
}

// ---- letters

fn is_letter(b: u8) -> bool
    ensures answer { result ≡ table.letter_byte b }
{
    b == CLEAR || b == INSIDE || b == DOUBTFUL
}

fn all_letters(cells: &[u8]) -> bool
    ensures answer { IsTrue result ↔ All (λ b. table.letter_byte b ≡ true) cells.now }
{
    cells.iter().all(|b| is_letter(*b))
}

// ---- clear

// Of some cells the first that is not C.
fn first_unclear(cells: &[u8]) -> Option<usize>
    ensures first { MatchOption result (All (λ b. b ≡ 67) cells.now) (λ i. (i < length cells.now) × (slice_index cells.now i ≢ 67) × ((k : ℕ) → k < i → slice_index cells.now k ≡ 67)) }
{
    cells.iter().position(|b| *b != CLEAR)
}

// Under a clamp the lowest cell that is not C, and the leftmost of its row.
fn stop_under(cells: &[u8], n: usize, clamp: Clamp) -> Option<Cell>
    requires within { Within n cells.now clamp }
    ensures first { MatchOption result (table.clear_rows n cells.now clamp ≡ clamp.rows) (λ cell. FirstCell n cells.now clamp cell) }
{
    for row in clamp.row..clamp.row + clamp.rows {
        let at = row * n + clamp.column;
        if let Some(left) = first_unclear(&cells[at..at + clamp.columns]) {
            return Some(Cell {
                column: clamp.column + left,
                row,
            });
        }
    }
    None
}

// Of the clamps the first with a cell that is not C, and its first such cell.
fn first_stop(cells: &[u8], n: usize, clamps: &[Clamp]) -> Option<Stop>
    requires within { All (λ c. Within n cells.now c) clamps.now }
    ensures first { MatchOption result (All (λ c. table.clear_rows n cells.now c ≡ c.rows) clamps.now) (λ stop. FirstStop n cells.now clamps.now stop) }
{
    for (k, clamp) in clamps.iter().enumerate() {
        if let Some(cell) = stop_under(cells, n, *clamp) {
            return Some(Stop { clamp: k, cell });
        }
    }
    None
}

// ---- the answer

// Whether every cell of the job's map under every clamp is C: go, or the first clamp with a cell that is not, and its lowest, then leftmost such
// cell; or the refusal 2, 3, 4, 7, 10 or 11, the lowest that applies (`PlaceLowest`). Where demand 3 holds of the map, as it does of what the
// library draws for the job, a go means that whatever lies under a clamp keeps at least the reach from the outline.
pub fn place(job: Job, cells: &[u8], clamps: [usize; 16]) -> Result<Placed, Refusal>
    ensures answer { as_placed result ≡ table.place job cells.now clamps }
    ensures go { result ≡ Ok Go → MapHolds job cells.now → GoMeans job clamps }
{
    let side = clearance::grid(job)?;
    let count = side * side;
    if cells.len() < count {
        return Err(Refusal::Space);
    }
    let clamps = clamps_of(clamps);
    if !all_on_plate(side, &clamps) {
        return Err(Refusal::OffPlate);
    }
    if !all_letters(&cells[..count]) {
        return Err(Refusal::Letter);
    }
    match first_stop(cells, side, &clamps) {
        None => Ok(Placed::Go),
        Some(stop) => Ok(Placed::Stopped(stop)),
    }
}
