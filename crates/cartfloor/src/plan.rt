// The planner: every refusal is decided before a byte is written.
ghost use Rattle.model.specs.Promises.{Planned};

use crate::refuse::admit;
use model::answer::{Answer, packed};
use planner::plan::plan_job;

pub fn cartfloor_plan(text: &[u8], store: &mut [u8], sheet: &mut [u8]) -> u64
    ensures { Planned text.now store.old sheet.old store.new sheet.new result }
{
    let job = match admit(text, store.len()) {
        Ok(job) => job,
        Err(refusal) => return refusal.packed(),
    };
    if sheet.len() < job.sheet_least() {
        return packed(Answer::SheetTooShort, 0);
    }
    let r = plan_job(&job, store, sheet);
    store.fill(0);
    r
}
