// A sheet judged: read, then its paths and spare carts, or its choke points, held against the job. It works in locals.
#![tactic(auto)]

ghost use Rattle.std.specs.Prelude.{◌+◌, ◌<◌, ◌≤◌, IfOk, IfErr};
ghost use Rattle.model.specs.declared.answer.Answer.TheVariants.{Cannot};
ghost use Rattle.model.specs.Answers.{number};
ghost use Rattle.model.specs.Limits.{max_text};
ghost use Rattle.model.specs.Ready.{Ready};
ghost use Rattle.model.specs.ReadSheet.{read_sheet};
ghost use Rattle.model.specs.Promises.{Judged};
ghost use Rattle.job.specs.Lists.{job_of};
ghost use Rattle.sheetjudge.specs.Told.{told};

use job::held::Ride;
use job::state::Job;
use model::Limits;
use model::answer::{Answer, Refusal};
use sheet::Sheet;

// PLAN or CANNOT, where the sheet is right; else its first bad line, or that it is wrong.
pub fn judge_sheet(job: &Job, sheet: &[u8]) -> Result<Answer, Refusal>
    requires { Ready (job_of job.now) }
    ensures judged { Judged (job_of job.now) (read_sheet (job_of job.now) sheet.now) (told result) }
    ensures right { IfOk result (λ answer. number answer ≤ number Cannot) }
    ensures wrong { IfErr result (λ refusal. (number Cannot < number refusal.answer) × (refusal.line ≤ max_text + 1)) }
{
    let mut held = [Ride::BLANK; Limits::CARTS];
    let rides = &mut held[..job.carts.len()];
    let (right, answer) = match sheet::read_sheet(job, sheet, rides) {
        Err(bad) => {
            return Err(Refusal {
                answer: Answer::BadSheet,
                line: bad.line,
            });
        }
        Ok(read) => match read {
            Sheet::Plan => (planjudge::plan::is_plan(job, rides), Answer::Plan),
            Sheet::Cannot(chokes) => (
                chokejudge::choke::is_choke_list(job, chokes.as_slice()),
                Answer::Cannot,
            ),
        },
    };
    if !right {
        return Err(Refusal {
            answer: Answer::WrongSheet,
            line: 0,
        });
    }
    Ok(answer)
}
