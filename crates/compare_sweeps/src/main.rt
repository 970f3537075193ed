// Sweeps the recipe on standard input both ways, and says for each source and order of turns whether the two agree; faults on standard error.
#![tactic(auto)]

fn main(rt: HostRuntime) {
    program_io::tell_arguments(&rt);
    // one byte more than a recipe may have
    let mut encoded = [0u8; 513];
    let n = program_io::read_input(&rt, &mut encoded);
    program_io::tell_output(&rt, comparison::print(&rt, &encoded[..n]));
    program_io::tell_refusal(&rt, &encoded[..n]);
}
