// A job as a row of numbers, read and written.
#![tactic(auto)]

ghost use Rattle.std.specs.Prelude.{◌≡◌, ◌≤◌};
ghost use Rattle.flat_jobs.specs.FlatJobs.{row_long, stretch, job_from, numbers_of};

use model::Job;

// Where the places and the marks begin in a row, how many numbers they are, and how long the row is.
pub const PLACES: usize = 7;

const PLACES_LONG: usize = 512;

pub const MARKS: usize = PLACES + PLACES_LONG;

const MARKS_LONG: usize = 64;

pub const NUMBERS: usize = MARKS + MARKS_LONG;

// A whole row: zeros for the numbers that are missing at its end, and none of those past its end.
fn whole(numbers: &[i32]) -> [i32; NUMBERS]
    ensures row { result ≡ stretch 0 row_long numbers.now }
{
    let mut row = [0; NUMBERS];
    let given = numbers.len().min(NUMBERS);
    row[..given].copy_from_slice(&numbers[..given]);
    row
}

pub fn job_from(numbers: &[i32]) -> Job
    ensures job { result ≡ job_from numbers.now }
{
    let row = whole(numbers);
    let [x, y, n, m, reach, grain, count, ..] = row;
    let mut places = [0; PLACES_LONG];
    places.copy_from_slice(&row[PLACES..MARKS]);
    let mut marks = [0; MARKS_LONG];
    marks.copy_from_slice(&row[MARKS..]);
    Job {
        x,
        y,
        n,
        m,
        reach,
        grain,
        count: usize::try_from(count).unwrap_or(0),
        places,
        marks,
    }
}

// The row becomes the job's.
pub fn put_job(job: Job, numbers: &mut [i32; NUMBERS])
    requires few { job.count ≤ 64 }
    ensures wrote { numbers.new ≡ numbers_of job }
{
    let Job {
        x,
        y,
        n,
        m,
        reach,
        grain,
        count,
        places,
        marks,
    } = job;
    numbers[..PLACES].copy_from_slice(&[x, y, n, m, reach, grain, count as i32]);
    numbers[PLACES..MARKS].copy_from_slice(&places);
    numbers[MARKS..].copy_from_slice(&marks);
}
