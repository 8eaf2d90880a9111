// The lines of choke points.
ghost use Rattle.std.specs.Prelude.{◌≡◌, ◌+◌, ◌<◌, ◌≤◌, [], IfErr};
ghost use Rattle.model.specs.Limits.{max_cells, max_calls, max_steps};
ghost use Rattle.model.specs.Job.{horizon};
ghost use Rattle.model.specs.Text.{lines_of, whole_word};
ghost use Rattle.model.specs.FirstBad.{rest_says};
ghost use Rattle.model.specs.ReadSheet.{bad, cannot, numbers_after, whole_of, choke_line};
ghost use Rattle.job.specs.Lists.{job_of};
ghost use Rattle.text.specs.Rest.{rest_of};
ghost use Rattle.sheet.specs.Parts.{choke_read, chokes_read};

use crate::BadLine;
use crate::numbers::{first_number, only_number};
use job::held::Choke;
use job::list::List;
use job::state::{CallKind, Job};
use model::Limits;
use text::lines::Lines;
use text::scan;

// A CHOKE line with a whole call: one at a lift.
fn whole_line(job: &Job, line: &[u8]) -> Option<Choke>
    ensures { choke_read result ≡ whole_of (job_of job.now) (numbers_after whole_word line.now) }
{
    let call = only_number(line, b"CHOKE\tCALL\t")?;
    match job.calls.as_slice().get(call)?.kind {
        CallKind::Lift => Some(Choke::Call { call: call as u8 }),
        CallKind::Bay => None,
    }
}

// A CHOKE line: a cell, and a step from 0 to the latest; or a whole call, whose line has a word where the cell would stand.
fn choke_line(job: &Job, latest: usize, line: &[u8]) -> Option<Choke>
    requires { (job.now.cells ≤ max_cells) × (latest ≡ horizon (job_of job.now)) × (latest < max_steps) }
    ensures { choke_read result ≡ choke_line (job_of job.now) line.now }
{
    let Some(cell) = first_number(line, b"CHOKE\t") else {
        return whole_line(job, line);
    };
    let step = scan::number(line, cell.next + 1)?;
    if step.next < line.len() || job.cells <= cell.value || latest < step.value {
        return None;
    }
    Some(Choke::Cell {
        step: step.value as u8,
        cell: cell.value as u8,
    })
}

// The CHOKE lines, as many as count, of which the first has the number 2, and no line after them.
pub fn read_chokes(
    job: &Job,
    lines: &mut Lines,
    count: usize,
) -> Result<List<Choke, { Limits::CALLS }>, BadLine>
    requires { (job.now.cells ≤ max_cells) × (count ≤ max_calls) }
    ensures said { chokes_read result ≡ rest_says bad (choke_line (job_of job.now)) cannot [] count 2 (lines_of (rest_of lines.old)) }
    ensures number { IfErr result (λ bad. bad.line ≤ count + 2) }
{
    let latest = job.last_step();
    let mut chokes = List::new();
    for k in 0..count {
        let bad = BadLine { line: 2 + k };
        let line = lines.next().ok_or(bad)?;
        let choke = choke_line(job, latest, line).ok_or(bad)?;
        chokes.push(choke);
    }
    if !lines.is_done() {
        return Err(BadLine { line: 2 + count });
    }
    Ok(chokes)
}
