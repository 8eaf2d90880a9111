// Sheets, read: paths and the walks of spare carts, or choke points, in the written form, or the first bad line.
#![tactic(auto)]

mod choke;
mod head;
mod numbers;
mod plan;

ghost use Rattle.std.specs.Prelude.{◌≡◌, ◌+◌, ◌≤◌, length, IfErr};
ghost use Rattle.model.specs.Limits.{max_carts};
ghost use Rattle.model.specs.Ready.{Ready};
ghost use Rattle.model.specs.ReadSheet.{read_sheet};
ghost use Rattle.job.specs.Lists.{job_of};
ghost use Rattle.sheet.specs.Form.{form_of};

use job::held::{Choke, Ride};
use job::list::List;
use job::state::Job;
use model::Limits;
use text::lines::Lines;

// The first bad line of a sheet, from 1.
#[derive(Clone, Copy, Debug, PartialEq, Eq)]
pub struct BadLine {
    pub line: usize,
}

// What a sheet in the form is: a plan, whose paths and spare carts' rides lie with the reader's caller, or choke points.
#[derive(Clone, Copy)]
pub enum Sheet {
    Plan,
    Cannot(List<Choke, { Limits::CALLS }>),
}

// A plan's paths and then its spare carts' rides go into `rides`, which hold anything where the sheet is no plan.
pub fn read_sheet(job: &Job, sheet: &[u8], rides: &mut [Ride]) -> Result<Sheet, BadLine>
    requires { Ready (job_of job.now) × (length rides.old ≡ length (job_of job.now).carts) }
    ensures said { form_of (job_of job.now) result rides.new ≡ read_sheet (job_of job.now) sheet.now }
    ensures number { IfErr result (λ bad. bad.line ≤ max_carts + 2) }
{
    let bad = BadLine { line: 1 };
    let mut lines = Lines::new(sheet);
    let line = lines.next().ok_or(bad)?;
    if head::is_plan(job, line) {
        plan::read_plan(job, &mut lines, rides)?;
        return Ok(Sheet::Plan);
    }
    let count = head::choke_count(job, line).ok_or(bad)?;
    let chokes = choke::read_chokes(job, &mut lines, count)?;
    Ok(Sheet::Cannot(chokes))
}
