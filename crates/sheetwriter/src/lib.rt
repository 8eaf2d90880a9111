// Sheets, written into a lent buffer.
#![tactic(auto)]

ghost use Rattle.std.specs.Prelude.{◌≡◌, true, ◌+◌, ◌*◌, ◌<◌, ◌≤◌, length};
ghost use Rattle.model.specs.Lists.{In};
ghost use Rattle.model.specs.Text.{line};
ghost use Rattle.model.specs.Job.{sheet_least};
ghost use Rattle.model.specs.Plan as plan;
ghost use Rattle.model.specs.Ready.{Ready};
ghost use Rattle.model.specs.ReadSheet.{known_path, known_spare};
ghost use Rattle.model.specs.SheetText.{choke_opens, choke_numbers, plan_text, cannot_text};
ghost use Rattle.job.specs.Lists.{job_of};
ghost use Rattle.text.specs.Wrote.{Wrote, Writes};
ghost use Rattle.job.specs.Held.{as_ride, paths_to, spares_from, as_choke, as_chokes};
ghost use Rattle.sheetwriter.specs.Lines.{opening, ride_line};

use job::held::{Choke, Ride};
use job::state::Job;
use text::put::Pen;

// The word of a line with its first numbers: PATH with a cart and the call that it meets, or SPARE with a cart.
fn put_opening(pen: &mut Pen, met: bool, ride: &Ride)
    requires { pen.old.at + 12 ≤ length pen.old.out.now }
    ensures { Writes pen.old (opening met ride.now) pen.new }
{
    let cart = usize::from(ride.cart);
    let call = usize::from(ride.call);
    if met {
        pen.pair(b"PATH", cart, call);
    } else {
        pen.word(b"SPARE");
        pen.field(cart);
    }
}

// A PATH line, or a SPARE line, which has no call.
fn put_ride(pen: &mut Pen, met: bool, ride: &Ride)
    requires { pen.old.at + 4 * length (as_ride ride.now).cells + 13 ≤ length pen.old.out.now }
    ensures { Writes pen.old (ride_line met ride.now) pen.new }
{
    put_opening(pen, met, ride);
    pen.fields(&ride.cells[..usize::from(ride.last) + 1]);
    pen.byte(b'\n');
}

// PLAN, a PATH line for each call, and a SPARE line for each cart that is left. The lines are written at one place, so that the compiler puts it in line.
pub fn put_plan(job: &Job, rides: &[Ride], out: &mut [u8]) -> usize
    requires { let j = job_of job.now in let n = length j.calls in Ready j × (length rides.now ≡ length j.carts) × ((p : plan.Path) → In p (paths_to rides.now n) → known_path j p ≡ true) × ((s : plan.Ride) → In s (spares_from rides.now n) → known_spare j s ≡ true) × (sheet_least j ≤ length out.old) }
    ensures { let n = length (job_of job.now).calls in Wrote out.old 0 (plan_text (paths_to rides.now n) (spares_from rides.now n)) out.new result }
{
    let calls = job.calls.len();
    let mut pen = Pen::new(out);
    pen.head(b"PLAN", calls);
    for (k, ride) in rides.iter().enumerate() {
        put_ride(&mut pen, k < calls, ride);
    }
    pen.at
}

// A CHOKE line: a cell and a step, or a whole call.
fn put_choke(pen: &mut Pen, choke: Choke)
    requires { pen.old.at + 15 ≤ length pen.old.out.now }
    ensures { Writes pen.old (line (choke_opens (as_choke choke)) (choke_numbers (as_choke choke))) pen.new }
{
    match choke {
        Choke::Cell { step, cell } => {
            pen.pair_line(b"CHOKE", usize::from(cell), usize::from(step))
        }
        Choke::Call { call } => pen.head(b"CHOKE\tCALL", usize::from(call)),
    }
}

// CANNOT, and a CHOKE line for each of the choke points.
pub fn put_cannot(job: &Job, chokes: &[Choke], out: &mut [u8]) -> usize
    requires { let j = job_of job.now in Ready j × (length chokes.now < length j.calls) × (sheet_least j ≤ length out.old) }
    ensures { Wrote out.old 0 (cannot_text (as_chokes chokes.now)) out.new result }
{
    let mut pen = Pen::new(out);
    pen.head(b"CANNOT", chokes.len());
    for choke in chokes {
        put_choke(&mut pen, *choke);
    }
    pen.at
}
