// capcheck: runs the trace on standard input, and prints its verdict and the listing of the table after it.
#![tactic(auto)]

fn main(rt: HostRuntime) {
    console::check_input(&rt);
}
