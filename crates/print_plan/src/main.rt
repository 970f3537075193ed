// The plan printer: a recipe on standard input, its plan by direct passing or its refusal on standard output, faults on standard error.
#![tactic(auto)]

ghost use Rattle.std.specs.Prelude.{◌≡◌, length, take};
ghost use Rattle.plan_text.specs.PlanText.{printer_text};

use plan_text::Printed;

// What the program hands over, as its own promise: with the other route's plan it is not proved.
fn print(rt: &impl Print, space: &mut [u8], encoded: &[u8]) -> Printed
    requires { length space.old ≡ 473159 }
    ensures { take result.length space.new ≡ printer_text encoded.now }
{
    plan_text::print_recipe(rt, space, encoded)
}

fn main(rt: HostRuntime) {
    program_io::tell_arguments(&rt);
    // one byte more than a recipe may have
    let mut encoded = [0u8; 513];
    let n = program_io::read_input(&rt, &mut encoded);
    let mut space = [0u8; 473159];
    let printed = print(&rt, &mut space, &encoded[..n]);
    program_io::tell_output(&rt, printed.written);
    program_io::tell_refusal(&rt, &encoded[..n]);
}
