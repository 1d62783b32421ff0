// The office's function as a C program calls it. From C the line is a pointer, which is never null, and a length.
#![tactic(auto)]

ghost use Rattle.std.specs.Prelude.{◌≤◌};
ghost use Rattle.office.specs.Verdict.{Verdict};

// 0 for an order line whose numbers are all in range; else the number of the refusal times a million, and its place. The line
// comes without a line feed at its end.
// stays: what C calls says again what the function says that it calls.
#[unsafe(no_mangle)]
pub extern "C" fn sinkerred_order_form(line: &[u8]) -> u32
    ensures verdict { Verdict line.now result }
    ensures greatest { result ≤ 18065536 }
{
    office::sinkerred_order_form(line)
}
