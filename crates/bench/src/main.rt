// The program bench of 01: a box on standard input, or a file that an argument names, and standard output.
#![tactic(auto)]

fn main(rt: HostRuntime) {
    console::run(&rt, b"bench [FILE]");
}
