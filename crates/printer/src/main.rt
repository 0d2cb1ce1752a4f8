// The day printer.
#![tactic(auto)]

fn main(rt: HostRuntime) {
    pump::run(&rt);
}
