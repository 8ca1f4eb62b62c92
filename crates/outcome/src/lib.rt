// What a build answers.
#![tactic(auto)]

ghost use Rattle.std.specs.Prelude.{◌≡◌, Ok};
ghost use Rattle.outcome.specs.Built.{figures_of, figures_at};

// The figures of a build that is not refused.
#[derive(Clone, Copy)]
pub struct Report {
    pub rows: usize,
    pub equal: usize,
    pub unequal: usize,
    pub reach: usize,
}

#[derive(Clone, Copy)]
pub enum Built {
    Finished(Report),
    Halted(Report),
}

// The answer of a build of n letters that is not refused.
pub fn answer(n: usize, report: Report) -> Built
    ensures { figures_of (Ok result) ≡ figures_at n report.rows report.equal report.unequal report.reach }
{
    if report.rows == n {
        Built::Finished(report)
    } else {
        Built::Halted(report)
    }
}
