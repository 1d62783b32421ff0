// The line readers as bench/ links them.
#![tactic(auto)]

ghost use Rattle.hierarchylines.specs.Reading.{lists};
ghost use Rattle.linebench.specs.Packed.{OrderBenched, HierarchyBenched};

// How many values the order has that was read, or its refusal.
// stays: what C calls says again what the function says that it calls.
#[unsafe(no_mangle)]
pub extern "C" fn bench_read_order(line: &[u8], values: &mut [i32]) -> i64
    ensures { OrderBenched line.now values.old result values.new }
{
    linebench::bench_read_order(line, values)
}

// How many cells the hierarchy has that was read, or its refusal.
// stays: what C calls says again what the function says that it calls.
#[unsafe(no_mangle)]
pub extern "C" fn bench_read_hierarchy(
    line: &[u8],
    coordinates: &mut [i32],
    corners: &mut [i32],
    replacements: &mut [i32],
    taken: &mut [i32],
) -> i64
    ensures { HierarchyBenched line.now (lists coordinates.old corners.old replacements.old taken.old) result (lists coordinates.new corners.new replacements.new taken.new) }
{
    linebench::bench_read_hierarchy(line, coordinates, corners, replacements, taken)
}
