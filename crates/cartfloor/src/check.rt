// The check: a sheet from any hand, against its job. The store is touched only to wipe it.
ghost use Rattle.model.specs.Promises.{Checked};

use crate::refuse::admit;
use model::answer::packed;
use sheetjudge::judge_sheet;

pub fn cartfloor_check(text: &[u8], store: &mut [u8], sheet: &[u8]) -> u64
    ensures { Checked text.now store.old sheet.now store.new result }
{
    let job = match admit(text, store.len()) {
        Ok(job) => job,
        Err(refusal) => return refusal.packed(),
    };
    match judge_sheet(&job, sheet) {
        Ok(answer) => {
            store.fill(0);
            packed(answer, 0)
        }
        Err(wrong) => wrong.packed(),
    }
}
