// The program that prints every tree of a size. Its stored input is the size 2.
#![tactic(auto)]

fn main(rt: HostRuntime) {
    trees_text::run(&rt);
}
