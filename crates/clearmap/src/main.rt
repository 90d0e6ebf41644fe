// The program: a job sheet from standard input, its clearance map or its refusal to standard output. No contract stands on `main`, so that it has
// nothing of its own. Its crate names `streams` for the type of the receipt that comes back, and nothing else of it.
#![tactic(auto)]

fn main(rt: HostRuntime) {
    let mut input = rt.stdin();
    answering::answer(&rt, &mut input);
}
