// All runs of a string: document 02, T-03. It is of letters or of symbols (T-07).
#![tactic(auto)]

ghost use Rattle.std.specs.Prelude.{◌≡◌, false, ◌≤◌, length, map};
ghost use Rattle.suffix.specs.Search.{tabulate};
ghost use Rattle.refusal.specs.Answers.{figures_of};
ghost use Rattle.repeats.specs.Refusals.{list_lengths_differ};
ghost use Rattle.repeats.specs.Answers.{zeros};
ghost use Rattle.run_list.specs.Entries.{tables};
ghost use Rattle.roots.specs.WorkTables.{work_in, SameWork};
ghost use Rattle.runs.specs.Lists.{lists_in, cut_at, HasRoom, Written, Ended, SameLists};
ghost use Rattle.runs.specs.Reported.{Reported};

use ranks::Letter;
use refusal::Refusal;
use roots::{WorkTables, gather};
use run_list::RunList;

// Fills a list with the first `count` entries of a table, and 0 beyond.
fn copy(table: &[u32], count: usize, list: &mut [u32])
    requires { (count ≤ length table.now) × (count ≤ length list.old) }
    ensures { list.new ≡ tabulate (length list.old) (cut_at count table.now) }
{
    list[..count].copy_from_slice(&table[..count]);
    list[count..].fill(0);
}

// Three lists for runs: their starts, ends and periods.
#[derive(Drop)]
pub struct Lists<'a> {
    pub starts: &'a mut [u32],
    pub ends: &'a mut [u32],
    pub periods: &'a mut [u32],
}

impl Lists<'_> {
    // Whether they differ in length.
    fn differ(&self) -> bool
        ensures { result ≡ list_lengths_differ (length self.now.starts.now) (length self.now.ends.now) (length self.now.periods.now) }
    {
        self.ends.len() != self.starts.len() || self.periods.len() != self.starts.len()
    }

    // Writes the runs that are found to the lists, and 0 beyond. Where the lists have fewer entries they are left.
    fn write(&mut self, found: &RunList) -> Result<usize, Refusal>
        requires room { HasRoom found.now.count (tables found.now) }
        requires even { list_lengths_differ (length self.old.starts.now) (length self.old.ends.now) (length self.old.periods.now) ≡ false }
        ensures lent { SameLists self.old self.new }
        ensures written { Written found.now.count (tables found.now) (lists_in self.old) (lists_in self.new) result }
    {
        let count = found.count;
        if self.starts.len() < count {
            return Err(Refusal::TooManyRuns);
        }
        copy(found.starts, count, self.starts);
        copy(found.ends, count, self.ends);
        copy(found.periods, count, self.periods);
        Ok(count)
    }
}

// 0 in the first `count` entries of a table that has 0 beyond them.
fn clear_first(table: &mut [u32], count: usize)
    requires { Ended count table.old }
    ensures { table.new ≡ zeros table.old }
{
    table[..count].fill(0);
}

// Reports all runs of a string, by start and then by period, in three lists, with 0 beyond. The work tables hold 0 afterwards, also where there
// are more runs than entries; any other refusal writes nothing.
pub fn report<S: Letter>(
    string: &[S],
    work: &mut WorkTables,
    lists: &mut Lists,
) -> Result<usize, Refusal>
    ensures work_lent { SameWork work.old work.new }
    ensures lists_lent { SameLists lists.old lists.new }
    ensures reported { Reported (map S.rank string.now) (work_in work.old) (lists_in lists.old) (work_in work.new) (lists_in lists.new) (figures_of result) }
{
    if lists.differ() {
        // 1 and 2 come before 12
        work.verdict(string.len())?;
        return Err(Refusal::ListLengths);
    }
    let count = gather(string, work)?;
    let found = RunList {
        starts: &mut *work.previous,
        ends: &mut *work.previous_match,
        periods: &mut *work.next,
        count,
    };
    let written = lists.write(&found);
    clear_first(found.starts, count);
    clear_first(found.ends, count);
    clear_first(found.periods, count);
    written
}
