// A job while its lines are read. A line goes in behind those before it, or fails the first of five tests, which are made in their order over the
// whole line.
ghost use Rattle.std.specs.Prelude.{◌≡◌, [], ◌∷◌, ◌≤◌, true, OnErr};
ghost use Rattle.std.proofs.Math.Option.{some};
ghost use Rattle.model.specs.Limits.{max_cells};
ghost use Rattle.model.specs.Text.{fields_of, scaled_of};
ghost use Rattle.model.specs.ReadJob.{no_job, may_follow, in_range, has_room, is_new, add, numbers_say, fields_say, line_says};
ghost use Rattle.job.specs.Lists.{job_of};
ghost use Rattle.reader.specs.Lines.{kind_of, of_line, said};
ghost use Rattle.reader.specs.Table.{Noted};

use crate::line;
use crate::line::{Fault, Kind, Line};
use job::bits::{Bits, pair};
use job::list::List;
use job::state::Job;
use model::Limits;

// The table has a bit for each two cells, either way round, then a row of cells for the carts and one for the calls and bays. A cell with itself
// has one too, so that every pair has one of its own.
const CART_ROW: usize = Limits::CELLS * (Limits::CELLS + 1) / 2;

const CALL_ROW: usize = CART_ROW + Limits::CELLS;

const TABLE_BYTES: usize = (CALL_ROW + Limits::CELLS) / 8;

// The job of the lines so far, which is filled where it stands, since a job is too large to be handed on at every line, and the table of what
// stands in it already.
#[derive(Drop)]
pub struct Draft {
    pub job: Job,
    seen: Bits<{ TABLE_BYTES }>,
    ghost small: { job.cells ≤ max_cells },
    ghost noted: { Noted seen.bytes (job_of job) },
}

impl Draft {
    // Before the first line.
    pub fn new() -> Draft
        ensures { job_of result.job ≡ no_job }
    {
        Draft {
            job: Job {
                cells: 0,
                tracks: List::new(),
                carts: List::new(),
                calls: List::new(),
            },
            seen: Bits::new(),
        }
    }

    // FLOOR, then TRACK, then CART, then CALL and BAY lines.
    fn may_follow(&self, kind: Kind) -> bool
        ensures { result ≡ may_follow (job_of self.now.job) (kind_of kind) }
    {
        let job = &self.job;
        match kind {
            Kind::Floor => job.cells == 0,
            Kind::Track => 0 < job.cells && job.carts.is_empty() && job.calls.is_empty(),
            Kind::Cart => 0 < job.cells && job.calls.is_empty(),
            Kind::Call(_) => 0 < job.cells,
        }
    }

    fn in_range(&self, kind: Kind, a: usize, b: usize) -> bool
        ensures { result ≡ in_range (job_of self.now.job) (kind_of kind) a b }
    {
        let cells = self.job.cells;
        match kind {
            Kind::Floor => 0 < a && a <= Limits::CELLS,
            Kind::Track => a < cells && b < cells,
            Kind::Cart => a < cells,
            Kind::Call(_) => a < cells && b < Limits::STEPS,
        }
    }

    fn has_room(&self, kind: Kind) -> bool
        ensures { result ≡ has_room (job_of self.now.job) (kind_of kind) }
    {
        match kind {
            Kind::Floor => true,
            Kind::Track => !self.job.tracks.is_full(),
            Kind::Cart => !self.job.carts.is_full(),
            Kind::Call(_) => !self.job.calls.is_full(),
        }
    }

    fn is_new(&self, line: Line) -> bool
        ensures { result ≡ of_line (is_new (job_of self.now.job)) line }
    {
        match line {
            Line::Floor(_) => true,
            Line::Track(track) => {
                let (from, to) = (usize::from(track.from), usize::from(track.to));
                from != to && !self.seen.has(pair(from, to))
            }
            Line::Cart(cell) => !self.seen.has(CART_ROW + usize::from(cell)),
            Line::Call(call) => !self.seen.has(CALL_ROW + usize::from(call.cell)),
        }
    }

    // Puts the line at the end of the list of its kind, and notes it in the table. A FLOOR line has no place there.
    fn put(&mut self, line: Line)
        requires fits { of_line (in_range (job_of self.old.job)) line ≡ true }
        requires room { of_line (λ k a b. has_room (job_of self.old.job) k) line ≡ true }
        ensures { job_of self.new.job ≡ of_line (add (job_of self.old.job)) line }
    {
        match line {
            Line::Floor(cells) => self.job.cells = cells,
            Line::Track(track) => {
                self.job.tracks.push(track);
                self.seen
                    .add(pair(usize::from(track.from), usize::from(track.to)));
            }
            Line::Cart(cell) => {
                self.job.carts.push(cell);
                self.seen.add(CART_ROW + usize::from(cell));
            }
            Line::Call(call) => {
                self.job.calls.push(call);
                self.seen.add(CALL_ROW + usize::from(call.cell));
            }
        }
    }

    // Takes in the line of this kind with these numbers, or the first test that they fail: then nothing changed.
    fn take_numbers(&mut self, kind: Kind, a: usize, b: usize) -> Result<(), Fault>
        ensures says { said result (job_of self.new.job) ≡ numbers_say (job_of self.old.job) (kind_of kind) (some (a ∷ b ∷ [])) }
        ensures kept { OnErr result (self.new ≡ self.old) }
    {
        if !self.in_range(kind, a, b) {
            return Err(Fault::Range);
        }
        if !self.has_room(kind) {
            return Err(Fault::Room);
        }
        let line = kind.line(a, b);
        if !self.is_new(line) {
            return Err(Fault::Doubled);
        }
        self.put(line);
        Ok(())
    }

    // Takes in the line of this kind with these fields, or nothing.
    fn take_fields(&mut self, kind: Kind, fields: &[u8]) -> Result<(), Fault>
        ensures says { said result (job_of self.new.job) ≡ fields_say scaled_of (job_of self.old.job) (kind_of kind) (fields_of fields.now) }
        ensures kept { OnErr result (self.new ≡ self.old) }
    {
        if !self.may_follow(kind) {
            return Err(Fault::Form);
        }
        let (a, b) = line::numbers_of(fields, kind.field_count())?;
        self.take_numbers(kind, a, b)
    }

    // Takes in a line, or nothing where it is wrong. The word at its start decides, and what follows the word and its tab goes on as the fields. They are read at one place, so
    // that the compiler puts all of it in line.
    pub fn take(&mut self, line: &[u8]) -> Result<(), Fault>
        ensures says { said result (job_of self.new.job) ≡ line_says scaled_of (job_of self.old.job) line.now }
        ensures kept { OnErr result (self.new ≡ self.old) }
    {
        let Some((kind, fields)) = line::word_of(line) else {
            return Err(Fault::Form);
        };
        self.take_fields(kind, fields)
    }
}
