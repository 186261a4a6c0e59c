// Document 01, trace 11: depth 64 allowed, 65 refused 8. The trace is the file `stdin` beside src/, which `stdout` answers.
#![tactic(auto)]

fn main(rt: HostRuntime) {
    console::check_input(&rt);
}
