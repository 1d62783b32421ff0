// Order lines: one flat array of numbers.
ghost use Rattle.std.specs.Prelude.{◌≡◌, ℕ, ◌<◌, ◌≤◌, ◌⊎◌, MatchBool, MatchResult};
ghost use Rattle.arrays.specs.Sink.{filling};
ghost use Rattle.forms.specs.Line.{Misread};
ghost use Rattle.orderlines.specs.Order.{order as order_form, OrderPassed, OrderChecked, OrderReading, OrderCheckedOnce, OrderReadOnce};

use arrays::{Number, Sink, keep_list};
use faults::{Fault, Refusal};
use scanner::begin;

// The place of a refusal that is about how many values an order has.
const ORDER_VALUES: usize = 4;

// Reads an order line to its end, keeps its values, and answers how many they are. Of what a refused line leaves in the sink nothing
// is promised.
fn pass_order(line: &[u8], sink: &mut Sink<'_>) -> Result<usize, Fault>
    ensures lender { sink.new.places.ghost_name ≡ sink.old.places.ghost_name }
    ensures reads { MatchResult result (λ n. OrderPassed line.now n (filling sink.old) (filling sink.new)) (Misread order_form line.now) }
{
    let mut scanner = begin(line)?;
    let count = keep_list(&mut scanner, &Number, sink)?;
    scanner.finish()?;
    Ok(count)
}

// Whether a line is an order with all numbers in range, and how many values it has then.
pub fn check_order(line: &[u8]) -> Result<usize, Fault>
    ensures { OrderChecked line.now result }
{
    pass_order(line, &mut Sink::over(&mut []))
}

// Whether so many values are too few or too many for so many places.
fn off_limits(count: usize, places: usize) -> bool
    ensures { MatchBool result ((count ≡ 0) ⊎ (places < count)) ((0 < count) × (count ≤ places)) }
{
    count == 0 || count > places
}

// Reads the values of an order line into the first places of a list, and answers how many they are.
// stays: C hands such a list over, as a pointer and a length.
pub fn read_order(line: &[u8], values: &mut [i32]) -> Result<usize, Fault>
    ensures { OrderReading line.now values.old result values.new }
{
    let count = check_order(line)?;
    if off_limits(count, values.len()) {
        return Err(Refusal::CountOffLimits.at(ORDER_VALUES));
    }
    pass_order(line, &mut Sink::over(values))
}

// Checking a line comes to one thing only.
pub fn order_is_checked_once()
    ensures { OrderCheckedOnce }
{}

// Reading a line into a list comes to one thing only.
pub fn order_is_read_once()
    ensures { OrderReadOnce }
{}
