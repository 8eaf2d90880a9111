// What both calls refuse: a text that the reader turns back, then a store that is too short for its job.
ghost use Rattle.cartfloor.specs.Admitted.{Admitted};

use job::state::Job;
use model::answer::{Answer, Refusal};

// The job that the text says, if a store of so many bytes is long enough for it.
pub fn admit(text: &[u8], lent: usize) -> Result<Job, Refusal>
    ensures { Admitted text.now lent result }
{
    let job = reader::read::read(text)?;
    if lent < job.store_least() {
        return Err(Refusal {
            answer: Answer::StoreTooShort,
            line: 0,
        });
    }
    Ok(job)
}
