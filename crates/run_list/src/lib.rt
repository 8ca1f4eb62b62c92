// A list of runs in three tables, kept by start and then by period: one run after the other is put in where it belongs.
#![tactic(auto)]

ghost use Rattle.std.specs.Prelude.{◌≡◌, ◌<◌};
ghost use Rattle.repeats.specs.Report.{before};
ghost use Rattle.run_list.specs.Entries.{run_of, tables, entry_in, stored, Has, SameTables};
ghost use Rattle.run_list.specs.Inserted.{is_taken, placed, Inserted};

// A run, or 0 three times for none.
#[derive(Clone, Copy)]
pub struct Run {
    pub start: u32,
    pub end: u32,
    pub period: u32,
}

impl Run {
    // By start and then by period.
    #[tactic(auto, unfolding(repeats::specs::Report::before))]
    fn comes_before(self, other: Run) -> bool
        ensures { result ≡ before (run_of self) (run_of other) }
    {
        (self.start, self.period) < (other.start, other.period)
    }
}

// The first `count` entries of three lent tables. It is made by naming them, not by a function: of a slice that a function's result keeps, its
// lender learns the length alone.
#[derive(Drop)]
pub struct RunList<'a> {
    pub starts: &'a mut [u32],
    pub ends: &'a mut [u32],
    pub periods: &'a mut [u32],
    pub count: usize,
}

impl RunList<'_> {
    // Entry k.
    fn entry(&self, k: usize) -> Run
        requires { Has (tables self.now) k }
        ensures { run_of result ≡ entry_in (tables self.now) k }
    {
        Run {
            start: self.starts[k],
            end: self.ends[k],
            period: self.periods[k],
        }
    }

    fn store(&mut self, k: usize, run: Run)
        requires { Has (tables self.old) k }
        ensures same { SameTables self.old self.new }
        ensures count { self.new.count ≡ self.old.count }
        ensures tables { tables self.new ≡ stored (tables self.old) k (run_of run) }
    {
        self.starts[k] = run.start;
        self.ends[k] = run.end;
        self.periods[k] = run.period;
    }

    // Whether there is a run, and in each table an entry for one more.
    #[tactic(auto, unfolding(crate::specs::Inserted::is_taken))]
    fn takes(&self, run: Run) -> bool
        ensures { result ≡ is_taken (tables self.now) self.now.count (run_of run) }
    {
        run.period != 0
            && self.count < self.starts.len()
            && self.count < self.ends.len()
            && self.count < self.periods.len()
    }

    // Stores a run at its place: the entries that it comes before, from the last on, move up by one.
    fn place(&mut self, run: Run)
        requires { Has (tables self.old) self.old.count }
        ensures same { SameTables self.old self.new }
        ensures count { self.new.count ≡ self.old.count }
        ensures tables { tables self.new ≡ placed self.old.count (tables self.old) (run_of run) }
    {
        for j in (0..self.count).rev() {
            let passed = self.entry(j);
            if !run.comes_before(passed) {
                self.store(j + 1, run);
                return;
            }
            self.store(j + 1, passed);
        }
        self.store(0, run);
    }

    // Puts a run, if it is one, where it belongs. Where a table has no entry for one more, nothing is changed.
    #[tactic(auto, using(crate::proofs::Inserting::taken_has, crate::proofs::Inserting::taken))]
    pub fn insert(&mut self, run: Run)
        ensures same { SameTables self.old self.new }
        ensures inserted { Inserted self.old.count (run_of run) (tables self.old) (tables self.new) self.new.count }
    {
        if self.takes(run) {
            self.place(run);
            self.count += 1;
        }
    }
}
