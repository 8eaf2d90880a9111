// The lines of a plan: a PATH line for each call, and a SPARE line for each cart without a path.
ghost use Rattle.std.specs.Prelude.{ℕ, ◌≡◌, ◌+◌, ◌<◌, ◌≤◌, List, [], suc, length, map, take, IfErr};
ghost use Rattle.model.specs.Limits.{max_cells, max_carts, max_steps};
ghost use Rattle.model.specs.Job.{horizon};
ghost use Rattle.model.specs.Plan.{Path};
ghost use Rattle.model.specs.Ready.{Ready};
ghost use Rattle.model.specs.Text.{Lines as TextLines, lines_of};
ghost use Rattle.model.specs.FirstBad.{lines_due, rest_says};
ghost use Rattle.model.specs.ReadSheet.{Sheet, bad, plan, size_fits, path_line, spare_line, spares_say};
ghost use Rattle.job.specs.Lists.{as_kind, job_of};
ghost use Rattle.job.specs.Held.{as_path, as_ride, paths_to, spares_from};
ghost use Rattle.text.specs.Rest.{rest_of};
ghost use Rattle.sheet.specs.Parts.{if_read, behind, cells_fit, unless_bad};

use crate::BadLine;
use crate::numbers::{first_number, read_cells};
use job::held::Ride;
use job::state::{CallKind, Job};
use text::lines::Lines;
use text::scan;

// Whether a path to a call of this kind and deadline can have n cells.
fn size_fits(kind: CallKind, deadline: usize, n: usize) -> bool
    requires { deadline < max_steps }
    ensures { result ≡ size_fits (as_kind kind) deadline n }
{
    match kind {
        CallKind::Lift => 0 < n && n <= deadline + 1,
        CallKind::Bay => n == deadline + 1,
    }
}

// The cells of a ride, from step 0 on, behind the field that ends at `from`: as many as a path to a call of this kind and deadline can have.
fn ride_cells(
    job: &Job,
    line: &[u8],
    from: usize,
    kind: CallKind,
    deadline: usize,
    ride: &mut Ride,
) -> Option<()>
    requires { (job.now.cells ≤ max_cells) × (from ≤ length line.now) × (deadline < max_steps) }
    ensures { (if_read result (take (suc ride.new.last) ride.new.cells) ≡ cells_fit (job_of job.now) (as_kind kind) deadline (behind line.now from)) × (ride.new.cart ≡ ride.old.cart) × (ride.new.call ≡ ride.old.call) }
{
    let n = read_cells(line, from, job.cells, &mut ride.cells[..deadline + 1])?;
    if !size_fits(kind, deadline, n) {
        return None;
    }
    ride.last = (n - 1) as u8;
    Some(())
}

// A PATH line: a cart, a call, and the cells from step 0 to the one at which the call is met.
fn path_line(job: &Job, line: &[u8], ride: &mut Ride) -> Option<()>
    requires { Ready (job_of job.now) }
    ensures { if_read result (as_path ride.new) ≡ path_line (job_of job.now) line.now }
{
    let cart = first_number(line, b"PATH\t")?;
    let call = scan::number(line, cart.next + 1)?;
    if job.carts.len() <= cart.value {
        return None;
    }
    let due = job.calls.as_slice().get(call.value)?;
    ride.cart = cart.value as u8;
    ride.call = call.value as u8;
    ride_cells(
        job,
        line,
        call.next,
        due.kind,
        usize::from(due.deadline),
        ride,
    )
}

// A SPARE line: a cart, and the cells from step 0 to the latest, as of a path to a bay at that step.
fn spare_line(job: &Job, latest: usize, line: &[u8], ride: &mut Ride) -> Option<()>
    requires { Ready (job_of job.now) × (latest ≡ horizon (job_of job.now)) × (latest < max_steps) }
    ensures { if_read result (as_ride ride.new) ≡ spare_line (job_of job.now) line.now }
{
    let cart = first_number(line, b"SPARE\t")?;
    if job.carts.len() <= cart.value {
        return None;
    }
    ride.cart = cart.value as u8;
    ride_cells(job, line, cart.next, CallKind::Bay, latest, ride)
}

// The PATH lines, one for each of the rides: the first has the number 2.
fn read_paths(job: &Job, lines: &mut Lines, paths: &mut [Ride]) -> Result<(), BadLine>
    requires { Ready (job_of job.now) × (length paths.old ≤ max_carts) }
    ensures said { (on : List Path → ℕ → TextLines → Sheet) → unless_bad result (on (map as_path paths.new) (2 + length paths.new) (lines_of (rest_of lines.new))) ≡ lines_due bad (path_line (job_of job.now)) on [] (length paths.new) 2 (lines_of (rest_of lines.old)) }
    ensures number { IfErr result (λ bad. bad.line < 2 + length paths.new) }
{
    for (k, ride) in paths.iter_mut().enumerate() {
        let bad = BadLine { line: 2 + k };
        let line = lines.next().ok_or(bad)?;
        path_line(job, line, ride).ok_or(bad)?;
    }
    Ok(())
}

// The SPARE lines, one for each of the rides, of which the first has the number `first`, and no line after them.
fn read_spares(
    job: &Job,
    lines: &mut Lines,
    first: usize,
    spares: &mut [Ride],
) -> Result<(), BadLine>
    requires { Ready (job_of job.now) × (first + length spares.old ≤ max_carts + 2) }
    ensures said { (ps : List Path) → unless_bad result (plan ps (map as_ride spares.new)) ≡ rest_says bad (spare_line (job_of job.now)) (plan ps) [] (length spares.new) first (lines_of (rest_of lines.old)) }
    ensures number { IfErr result (λ bad. bad.line ≤ first + length spares.new) }
{
    let latest = job.last_step();
    for (k, ride) in spares.iter_mut().enumerate() {
        let bad = BadLine { line: first + k };
        let line = lines.next().ok_or(bad)?;
        spare_line(job, latest, line, ride).ok_or(bad)?;
    }
    if !lines.is_done() {
        return Err(BadLine {
            line: first + spares.len(),
        });
    }
    Ok(())
}

// The lines after PLAN: a PATH line for each call, and a SPARE line for each cart that is left.
pub fn read_plan(job: &Job, lines: &mut Lines, rides: &mut [Ride]) -> Result<(), BadLine>
    requires { Ready (job_of job.now) × (length rides.old ≡ length (job_of job.now).carts) }
    ensures said { let n = length (job_of job.now).calls in unless_bad result (plan (paths_to rides.new n) (spares_from rides.new n)) ≡ lines_due bad (path_line (job_of job.now)) (spares_say (job_of job.now)) [] n 2 (lines_of (rest_of lines.old)) }
    ensures number { IfErr result (λ bad. bad.line ≤ max_carts + 2) }
{
    let calls = job.calls.len();
    let (paths, spares) = rides.split_at_mut(calls);
    read_paths(job, lines, paths)?;
    read_spares(job, lines, 2 + calls, spares)
}
