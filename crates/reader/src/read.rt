// The whole text: its lines one after the other, then the count of carts and calls.
ghost use Rattle.reader.specs.Reading.{Read};

use crate::draft::Draft;
use job::state::Job;
use model::Limits;
use model::answer::{Answer, Refusal};
use text::lines::Lines;

// The job that the text says, or why it says none.
pub fn read(text: &[u8]) -> Result<Job, Refusal>
    ensures { Read text.now result }
{
    if Limits::TEXT < text.len() {
        return Err(Refusal {
            answer: Answer::TextTooLong,
            line: 0,
        });
    }
    let mut draft = Draft::new();
    let mut lines = Lines::new(text);
    let mut line = 1;
    while !lines.is_done() {
        let Some(row) = lines.next() else {
            return Err(Refusal {
                answer: Answer::BadLine,
                line,
            });
        };
        if let Err(fault) = draft.take(row) {
            let answer = Answer::from(fault);
            return Err(Refusal { answer, line });
        }
        line += 1;
    }
    let job = draft.job;
    if job.cells == 0 {
        return Err(Refusal {
            answer: Answer::BadLine,
            line,
        });
    }
    if job.carts.len() < job.calls.len() {
        return Err(Refusal {
            answer: Answer::Uneven,
            line: 0,
        });
    }
    Ok(job)
}
