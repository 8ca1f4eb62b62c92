// The build: from a string to four tables and a tree, in a given number of rows; and to the four tables alone, in either order.
#![tactic(auto)]

ghost use Rattle.std.specs.Prelude.{◌≡◌, false, ◌+◌, ◌-◌, ◌/◌, ◌%◌, ◌^◌, ◌≤◌, ◌<◌, length, get_or, set, take, replicate, map};
ghost use Rattle.suffix.specs.Tree.{tree_length, tree_bytes};
ghost use Rattle.ranks.specs.Ranks.{oriented, oriented_rank};
ghost use Rattle.entries.specs.Lent.{tables_in, cleared_tables, AreOf, SameLent};
ghost use Rattle.reuse.specs.Steps.{scanned, after_rows};
ghost use Rattle.outcome.specs.Built.{figures_of, BuiltExactly, TablesBuilt};
ghost use Rattle.build.specs.States.{progress_of, report_of, pair_of, unequal_at, at_end, figures_in, Scanned, build_state, Safe, settled_from};

use entries::{Tables, clear_bytes};
use outcome::{Built, Report, answer};
use ranks::{Letter, orient};
use refusal::{Refusal, build_verdict, tables_verdict};

// The state of a build: reach c, shift d, the rows that are recorded, and the comparisons made that found two letters equal,
// and unequal.
#[derive(Clone, Copy)]
struct State {
    reach: usize,
    shift: usize,
    rows: usize,
    equal: usize,
    unequal: usize,
}

// What a scan reports: the match and the order of its pair, and the comparisons made so far.
#[derive(Clone, Copy)]
struct ScanReport {
    matched: usize,
    left_smaller: bool,
    equal: usize,
    unequal: usize,
}

// A pair (l, r) that is settled: the state after it, its match, and whether the suffix at l is the smaller.
#[derive(Clone, Copy)]
struct SettledPair {
    state: State,
    matched: usize,
    left_smaller: bool,
}

// table[i] = value with match m.
fn record_entry(table: &mut [u32], matches: &mut [u32], i: usize, value: usize, m: usize)
    requires { (i < length table.old) × (i < length matches.old) × (value ≤ 1000000) × (m ≤ 1000000) }
    ensures { (table.new ≡ set table.old i value) × (matches.new ≡ set matches.old i m) }
{
    table[i] = value as u32;
    matches[i] = m as u32;
}

// What a scan reports that stops at unequal ranks.
fn differs(a: u32, b: u32, reverse: bool, m: usize, equal: usize, unequal: usize) -> ScanReport
    requires { unequal ≤ 2000000 }
    ensures { report_of result ≡ unequal_at (oriented_rank reverse a) (oriented_rank reverse b) m equal unequal }
{
    let left = orient(a, reverse);
    let right = orient(b, reverse);
    ScanReport {
        matched: m,
        left_smaller: left < right,
        equal,
        unequal: unequal + 1,
    }
}

// What a scan reports that comes to the end.
fn ends(m: usize, equal: usize, unequal: usize) -> ScanReport
    ensures { report_of result ≡ at_end m equal unequal }
{
    // at the end, the suffix at r is the smaller
    let left_smaller = false;
    ScanReport {
        matched: m,
        left_smaller,
        equal,
        unequal,
    }
}

// Goes on with step 1, raising m while the letters at l + m and r + m are equal.
fn scan_on<S: Letter>(
    string: &[S],
    reverse: bool,
    l: usize,
    r: usize,
    from: usize,
    equal: usize,
    unequal: usize,
) -> ScanReport
    requires { (length string.now ≤ 1000000) × (l < r) × (r + from ≤ length string.now) × (equal ≤ 1000001) × (unequal ≤ 2000000) }
    ensures { Scanned (oriented reverse (map S.rank string.now)) l r from equal unequal (report_of result) }
{
    let most = string.len() - r;
    for m in from..most {
        let left = string[l + m];
        let right = string[r + m];
        if !left.is_same(right) {
            return differs(
                left.rank(),
                right.rank(),
                reverse,
                m,
                equal + (m - from),
                unequal,
            );
        }
    }
    ends(most, equal + (most - from), unequal)
}

// Step 1: compares the letters at l + m and r + m, raising m while they are equal. `equal` and `unequal` count the comparisons made so far. The
// first comparison, at which most scans of varied letters stop, stands before the loop.
fn scan<S: Letter>(
    string: &[S],
    reverse: bool,
    l: usize,
    r: usize,
    from: usize,
    equal: usize,
    unequal: usize,
) -> ScanReport
    requires { (length string.now ≤ 1000000) × (l < r) × (r + from ≤ length string.now) × (equal ≤ 1000000) × (unequal ≤ 2000000) }
    ensures { Scanned (oriented reverse (map S.rank string.now)) l r from equal unequal (report_of result) }
{
    if r + from == string.len() {
        return ends(from, equal, unequal);
    }
    let first = string[l + from];
    let other = string[r + from];
    if first.is_same(other) {
        return scan_on(string, reverse, l, r, from + 1, equal + 1, unequal);
    }
    differs(first.rank(), other.rank(), reverse, from, equal, unequal)
}

impl State {
    // What a scan of (l, r) leaves.
    fn stop(mut self, l: usize, r: usize, report: ScanReport) -> SettledPair
        requires { (l < r) × (r + report.matched ≤ 1000000) }
        ensures stopped { pair_of result ≡ scanned l r (report_of report) }
        ensures rows { result.state.rows ≡ self.rows }
    {
        self.shift = r - l;
        self.reach = r + report.matched;
        self.equal = report.equal;
        self.unequal = report.unequal;
        SettledPair {
            state: self,
            matched: report.matched,
            left_smaller: report.left_smaller,
        }
    }

    // Steps 1 and 2: settles (l, r) from m, unless it is known to have match m and the smaller suffix at r: so it is called
    // at one place, and inlined there. No previous entry is read.
    fn settle<S: Letter>(
        self,
        string: &[S],
        reverse: bool,
        tables: &Tables,
        l: usize,
        r: usize,
        m: usize,
        known: bool,
    ) -> SettledPair
        requires few { length string.now ≤ 1000000 }
        requires long { AreOf (length string.now) (tables_in tables.now) }
        requires safe { known ≡ false → Safe (length string.now) (progress_of self) l r m }
        ensures settled { pair_of result
            ≡ settled_from known (oriented reverse (map S.rank string.now)) (progress_of self) (tables_in tables.now) l r m }
        ensures rows { result.state.rows ≡ self.rows }
    {
        if known {
            return SettledPair {
                state: self,
                matched: m,
                left_smaller: false,
            };
        }
        let mut from = m;
        if r + m < self.reach {
            let a = l - self.shift;
            let b = r - self.shift;
            if tables.next[a] as usize == b {
                let v = tables.next_match[a] as usize;
                if r + v < self.reach {
                    return SettledPair {
                        state: self,
                        matched: v,
                        left_smaller: false,
                    };
                }
            } else {
                let w = tables.previous_match[b] as usize;
                if r + w < self.reach {
                    return SettledPair {
                        state: self,
                        matched: w,
                        left_smaller: true,
                    };
                }
            }
            from = self.reach - r;
        }
        let report = scan(string, reverse, l, r, from, self.equal, self.unequal);
        self.stop(l, r, report)
    }

    // The figures of a build.
    fn report(self) -> Report
        ensures { result ≡ figures_in self }
    {
        Report {
            rows: self.rows,
            equal: self.equal,
            unequal: self.unequal,
            reach: self.reach,
        }
    }
}

// Sets bit k, which is 0, where the tree has it.
fn set_bit(tree: &mut [u8], k: usize)
    requires { k / 8 < length tree.old → get_or tree.old (k / 8) 0 + 2 ^ (k % 8) < 256 }
    ensures { tree.new ≡ set tree.old (k / 8) (get_or tree.old (k / 8) 0 + 2 ^ (k % 8)) }
{
    if k / 8 < tree.len() {
        let weight = 1u8 << (k % 8);
        tree[k / 8] = tree[k / 8] + weight;
    }
}

// The first `rows` rows of a string, over a tree that is cleared. What they have not written in the tables is left as it is.
// The tree may be shorter than the string asks for, or empty: it is written as far as it goes. Inlined, since the order is a constant to its one
// caller and the tree to the other.
#[inline(always)]
fn build_rows<S: Letter>(
    string: &[S],
    reverse: bool,
    rows: usize,
    tables: &mut Tables,
    tree: &mut [u8],
) -> State
    requires few { (length string.now ≤ 1000000) × (rows ≤ length string.now) }
    requires long { AreOf (length string.now) (tables_in tables.old) }
    requires clear { (length tree.old ≤ tree_length (length string.now)) × (tree.old ≡ replicate (length tree.old) 0) }
    ensures lent { SameLent tables.old tables.new }
    ensures still_long { AreOf (length string.now) (tables_in tables.new) }
    ensures steps { build_state result (cleared_tables (length string.now) rows (tables_in tables.new))
        ≡ after_rows (oriented reverse (map S.rank string.now)) rows }
    ensures bits { tree.new ≡ take (length tree.old) (tree_bytes (oriented reverse (map S.rank string.now)) rows) }
    ensures rows_done { result.rows ≡ rows }
{
    if rows == 0 {
        return State {
            reach: 0,
            shift: 0,
            rows: 0,
            equal: 0,
            unequal: 0,
        };
    }
    let n = string.len();
    let mut state = State {
        reach: 1,
        shift: 0,
        rows: 0,
        equal: 0,
        unequal: 0,
    };
    let mut bit = 0;
    // previous and its match of the row that is done last, still to be recorded; in a walk, those of l
    let mut p = n;
    let mut v = 0usize;
    // both loops end in their middle, so they are left by labels, as the document has the walk
    'rows: loop {
        set_bit(tree, bit);
        bit += 1;
        let r = state.rows + 1;
        state.rows = r;
        record_entry(tables.previous, tables.previous_match, r - 1, p, v);
        // none until a later row settles it
        record_entry(tables.next, tables.next_match, r - 1, n, 0);
        if rows <= r {
            break 'rows;
        }
        let mut l = r - 1;
        let mut m = 0;
        let mut known = false;
        'walk: loop {
            let pair = state.settle(string, reverse, tables, l, r, m, known);
            state = pair.state;
            m = pair.matched;
            if pair.left_smaller {
                p = l;
                v = m;
                break 'walk;
            }
            record_entry(tables.next, tables.next_match, l, r, m);
            bit += 1;
            if p == n {
                v = 0;
                break 'walk;
            }
            if v < m {
                break 'walk;
            }
            known = m < v;
            l = p;
            p = tables.previous[l] as usize;
            v = tables.previous_match[l] as usize;
        }
    }
    state
}

// Builds the four tables and the tree of a string, as they are after `rows` rows. A refusal writes nothing.
pub fn build<S: Letter>(
    string: &[S],
    rows: usize,
    tables: &mut Tables,
    tree: &mut [u8],
) -> Result<Built, Refusal>
    ensures lent { SameLent tables.old tables.new }
    ensures built { BuiltExactly (map S.rank string.now) rows
        (record { tables = tables_in tables.old; tree = tree.old })
        (record { tables = tables_in tables.new; tree = tree.new })
        (figures_of result) }
{
    let n = string.len();
    build_verdict(
        n,
        rows,
        tables.previous.len(),
        tables.next.len(),
        tables.previous_match.len(),
        tables.next_match.len(),
        tree.len(),
    )?;
    clear_bytes(tree);
    let state = build_rows(string, false, rows, tables, tree);
    // none for the positions of which the row is not done
    tables.clear_from(rows, n as u32);
    Ok(answer(n, state.report()))
}

// Builds the four tables of the whole string and no tree, in the order of its letters or in the reverse. A refusal writes nothing.
pub fn build_tables<S: Letter>(
    string: &[S],
    reverse: bool,
    tables: &mut Tables,
) -> Result<(), Refusal>
    ensures lent { SameLent tables.old tables.new }
    ensures built { TablesBuilt (oriented reverse (map S.rank string.now)) (tables_in tables.old) (tables_in tables.new) result }
{
    let n = string.len();
    tables_verdict(
        n,
        tables.previous.len(),
        tables.next.len(),
        tables.previous_match.len(),
        tables.next_match.len(),
    )?;
    build_rows(string, reverse, n, tables, &mut []);
    Ok(())
}
