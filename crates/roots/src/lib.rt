// The runs to which the Lyndon roots of both orders lead, gathered in order: document 02, T-03. A string is of letters or of symbols (T-07).
#![tactic(auto)]

ghost use Rattle.std.specs.Prelude.{◌≡◌, true, false, ◌≤◌, length, map};
ghost use Rattle.refusal.specs.Numbers.{verdict_number};
ghost use Rattle.repeats.specs.Report.{runs};
ghost use Rattle.repeats.specs.Refusals.{work_length_off};
ghost use Rattle.roots.specs.WorkTables.{work_in, work_refusal, work_with, SameWork, Gathered};
ghost use Rattle.roots.specs.States.{Tabled, HasRoom};

use build::build_tables;
use entries::{Tables, clear_from};
use ranks::Letter;
use refusal::Refusal;
use root_runs::{Next, report_of};
use run_list::RunList;

// Six tables to work with: those of a string, and next and next-match of the reverse order.
#[derive(Drop)]
pub struct WorkTables<'a> {
    pub previous: &'a mut [u32],
    pub next: &'a mut [u32],
    pub previous_match: &'a mut [u32],
    pub next_match: &'a mut [u32],
    pub reverse_next: &'a mut [u32],
    pub reverse_match: &'a mut [u32],
}

// Whether one of six lengths is not n.
pub fn any_off(n: usize, lengths: [usize; 6]) -> bool
    ensures { result ≡ work_length_off n lengths }
{
    lengths.iter().any(|&length| length != n)
}

impl WorkTables<'_> {
    // How many entries each has.
    fn lengths(&self) -> [usize; 6]
        ensures { result ≡ map length (work_in self.now) }
    {
        [
            self.previous.len(),
            self.next.len(),
            self.previous_match.len(),
            self.next_match.len(),
            self.reverse_next.len(),
            self.reverse_match.len(),
        ]
    }

    // The verdict on them for a string of n letters.
    #[tactic(auto, unfolding(crate::specs::WorkTables::work_refusal, refusal::specs::Numbers::first_of))]
    pub fn verdict(&self, n: usize) -> Result<(), Refusal>
        ensures { verdict_number result ≡ work_refusal n (map length (work_in self.now)) }
    {
        if n > 1000000 {
            return Err(Refusal::TooLong);
        }
        if any_off(n, self.lengths()) {
            return Err(Refusal::TableLength);
        }
        Ok(())
    }
}

// Leaves the runs of a string in the tables, starts in `previous`, ends in `previous_match`, periods in `next`, with 0 beyond them and in the other
// tables, and returns their number. `next` holds next at entry: a place reports one run at most, so its next is read before it is written over.
fn collect<S: Letter>(string: &[S], work: &mut WorkTables) -> usize
    requires room { HasRoom (length string.now) work.old }
    requires tabled { Tabled (map S.rank string.now) false work.old.next.now work.old.next_match.now }
    requires reverse_tabled { Tabled (map S.rank string.now) true work.old.reverse_next.now work.old.reverse_match.now }
    ensures lent { SameWork work.old work.new }
    ensures number { result ≡ length (runs (map S.rank string.now)) }
    ensures leaves { work_in work.new ≡ work_with (runs (map S.rank string.now)) (length string.now) }
{
    S::fit(string);
    // lent beside the list, as no field is read while others are lent
    let next_match = &mut *work.next_match;
    let reverse_next = &mut *work.reverse_next;
    let reverse_match = &mut *work.reverse_match;
    let mut list = RunList {
        starts: &mut *work.previous,
        ends: &mut *work.previous_match,
        periods: &mut *work.next,
        count: 0,
    };
    for i in 0..string.len() {
        let next = Next {
            position: list.periods[i],
            matched: next_match[i],
        };
        let reversed = Next {
            position: reverse_next[i],
            matched: reverse_match[i],
        };
        if let Some(run) = report_of(string, i, next, reversed) {
            list.insert(run);
        }
    }
    let count = list.count;
    clear_from(list.starts, count, 0);
    clear_from(list.ends, count, 0);
    clear_from(list.periods, count, 0);
    next_match.fill(0);
    reverse_next.fill(0);
    reverse_match.fill(0);
    count
}

// Gathers the runs of a string in order: starts in `previous`, ends in `previous_match`, periods in `next`, with 0 beyond them and in the other
// tables. Their number is returned. A refusal writes nothing.
pub fn gather<S: Letter>(string: &[S], work: &mut WorkTables) -> Result<usize, Refusal>
    ensures lent { SameWork work.old work.new }
    ensures gathered { Gathered (map S.rank string.now) (work_in work.old) (work_in work.new) result }
{
    work.verdict(string.len())?;
    let mut tables = Tables {
        previous: &mut *work.previous,
        next: &mut *work.next,
        previous_match: &mut *work.previous_match,
        next_match: &mut *work.next_match,
    };
    // no build refuses what the verdict does not
    build_tables(string, false, &mut tables)?;
    let mut reverse_tables = Tables {
        previous: &mut *work.previous,
        next: &mut *work.reverse_next,
        previous_match: &mut *work.previous_match,
        next_match: &mut *work.reverse_match,
    };
    build_tables(string, true, &mut reverse_tables)?;
    Ok(collect(string, work))
}
