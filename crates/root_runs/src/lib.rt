// The run that one place of a string reports, by its next and next-match under the two orders.
#![tactic(auto)]

ghost use Rattle.std.specs.Prelude.{◌≡◌, true, ◌≤◌, ◌<◌, eqb, length, map, is_none};
ghost use Rattle.std.specs.Option.{option_map};
ghost use Rattle.repeats.specs.Roots.{left_of};
ghost use Rattle.repeats.specs.Gathered.{report_of};
ghost use Rattle.run_list.specs.Entries.{run_of};
ghost use Rattle.root_runs.specs.States.{Within, accepted, run_in};
ghost use Rattle.root_runs.specs.Bounds.{is_within, report_within};

use ranks::Letter;
use run_list::Run;

// An entry of a next table, with its match.
#[derive(Clone, Copy)]
pub struct Next {
    pub position: u32,
    pub matched: u32,
}

impl Next {
    // Whether it can be that of place i in a string of n letters.
    #[tactic(auto, unfolding(crate::specs::Bounds::is_within))]
    fn is_within(self, n: usize, i: usize) -> bool
        ensures { result ≡ is_within n i self.position self.matched }
    {
        let j = self.position as usize;
        i < j && j + self.matched as usize <= n
    }
}

// How many places before i agree with those before j, j - i + 1 of them at the most.
#[tactic(auto, using(crate::proofs::Scanning::agree_none, crate::proofs::Scanning::letters_more, crate::proofs::Scanning::at_most, crate::proofs::Scanning::letters_differ))]
fn left_of<S: Letter>(string: &[S], i: usize, j: usize) -> usize
    requires { (i < j) × (j ≤ length string.now) × (length string.now ≤ 1000000) }
    ensures { result ≡ left_of (map S.rank string.now) i j }
{
    let most = i.min(j - i + 1);
    for x in 0..most {
        let left = string[i - 1 - x];
        let right = string[j - 1 - x];
        if !left.is_same(right) {
            return x;
        }
    }
    most
}

// The run that place i reports by its next under the order, or under the reverse of it.
fn accepted<S: Letter>(string: &[S], reverse: bool, i: usize, next: Next) -> Option<Run>
    requires { Within (length string.now) i next.position next.matched × (length string.now ≤ 1000000) }
    ensures { option_map run_of result ≡ accepted (map S.rank string.now) reverse i next.position next.matched }
{
    let j = next.position as usize;
    let m = next.matched as usize;
    let x = left_of(string, i, j);
    if x == 0 {
        return None;
    }
    if x > j - i {
        return None;
    }
    if x + m < j - i {
        return None;
    }
    if reverse && j + m == string.len() {
        return None;
    }
    Some(Run {
        start: (i - x) as u32,
        end: (j + m) as u32,
        period: (j - i) as u32,
    })
}

// What place i reports, where its next lies in the string under both orders.
fn judged_report<S: Letter>(string: &[S], i: usize, next: Next, reverse_next: Next) -> Option<Run>
    requires few { length string.now ≤ 1000000 }
    requires next { Within (length string.now) i next.position next.matched }
    requires reverse_next { Within (length string.now) i reverse_next.position reverse_next.matched }
    ensures run { run_in result ≡ report_of (map S.rank string.now) i next.position next.matched reverse_next.position reverse_next.matched }
    ensures none { is_none result ≡ eqb (report_of (map S.rank string.now) i next.position next.matched reverse_next.position reverse_next.matched).period 0 }
{
    accepted(string, false, i, next).or_else(|| accepted(string, true, i, reverse_next))
}

// What place i reports, by its next under the order and under the reverse of it. No run where one of them does not lie in the string, or the
// string is too long.
pub fn report_of<S: Letter>(string: &[S], i: usize, next: Next, reverse_next: Next) -> Option<Run>
    ensures run { run_in result ≡ report_within (map S.rank string.now) i next.position next.matched reverse_next.position reverse_next.matched }
    ensures none { is_none result ≡ eqb (report_within (map S.rank string.now) i next.position next.matched reverse_next.position reverse_next.matched).period 0 }
{
    let n = string.len();
    if n <= 1000000 && next.is_within(n, i) && reverse_next.is_within(n, i) {
        judged_report(string, i, next, reverse_next)
    } else {
        None
    }
}
