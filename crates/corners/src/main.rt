// The corners of 01, run and compared: the box of bench over the input that model/corners.py writes, held to the output that it
// expects.
#![tactic(auto)]

fn main(rt: HostRuntime) {
    console::run(&rt, b"corners [FILE]");
}
