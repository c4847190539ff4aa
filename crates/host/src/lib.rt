// What the evaluation host, which is written in C, calls: numbers and byte slices alone.
#![tactic(auto)]

ghost use Rattle.circuitfile.specs.File.{CheckPromise, PlanFilePromise};

// The check of a circuit file: 65,536 times the number plus the place.
#[unsafe(no_mangle)]
pub extern "C" fn gat_check(file: &[u8]) -> u64
    ensures { CheckPromise file.now result }
{
    gatfile::plan::check(file)
}

// Planning on a circuit file: the same answer, and every wire's bound, four big-endian bytes each.
#[unsafe(no_mangle)]
pub extern "C" fn gat_plan(file: &[u8], bounds: &mut [u8]) -> u64
    ensures { PlanFilePromise file.now bounds.old result bounds.new }
{
    gatfile::plan::plan(file, bounds)
}
