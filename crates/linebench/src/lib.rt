// The line readers as bench/ calls them from C: what came of reading as one number, and the lists. The crate linebench_c exports them,
// and nothing else uses this one.
#![tactic(auto)]

ghost use Rattle.std.specs.Prelude.{◌≡◌};
ghost use Rattle.hierarchylines.specs.Reading.{lists};
ghost use Rattle.linebench.specs.Packed.{packed_fault, packed_order, OrderBenched, HierarchyBenched};

use faults::Fault;
use hierarchylines::read_hierarchy;
use orderlines::read_order;

// The refusal's number times a million and its place, below 0.
// stays: this number is what the C program is told.
fn pack_fault(fault: Fault) -> i64
    ensures { result ≡ packed_fault fault }
{
    let number = u32::from(fault.refusal) as i64;
    let place = fault.place.min(999_999) as i64;
    -(number * 1_000_000 + place)
}

// How many there are, or the refusal.
// stays: this number is what the C program is told.
fn pack(read: Result<usize, Fault>) -> i64
    ensures { result ≡ packed_order read }
{
    match read {
        Ok(count) => count.min(999_999) as i64,
        Err(fault) => pack_fault(fault),
    }
}

// How many values the order has that was read, or its refusal.
pub fn bench_read_order(line: &[u8], values: &mut [i32]) -> i64
    ensures { OrderBenched line.now values.old result values.new }
{
    pack(read_order(line, values))
}

// How many cells the hierarchy has that was read, or its refusal.
// stays: C hands such lists over, each as a pointer and a length.
pub fn bench_read_hierarchy(
    line: &[u8],
    coordinates: &mut [i32],
    corners: &mut [i32],
    replacements: &mut [i32],
    taken: &mut [i32],
) -> i64
    ensures { HierarchyBenched line.now (lists coordinates.old corners.old replacements.old taken.old) result (lists coordinates.new corners.new replacements.new taken.new) }
{
    let read = read_hierarchy(line, coordinates, corners, replacements, taken);
    pack(read.map(|contents| contents.cells))
}
