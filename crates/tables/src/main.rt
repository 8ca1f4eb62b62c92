// The tables program. Its stored input is the six bytes banana.
#![tactic(auto)]

fn main(rt: HostRuntime) {
    tables_text::run(&rt);
}
