// The one function that the office's order form, a C program, calls: whether a line is a well formed order. The crate office_c exports it.
#![tactic(auto)]

ghost use Rattle.std.specs.Prelude.{◌⊎◌, ◌≡◌, ℕ, ◌≤◌};
ghost use Rattle.faults.specs.Number.{number_of};
ghost use Rattle.office.specs.Verdict.{code, Verdict, OneVerdict};

use faults::Fault;
use orderlines::check_order;

// A fault as one number.
// stays: this number is what the C program is told.
fn code_of(fault: Fault) -> u32
    requires number { number_of fault.refusal ≤ 18 }
    requires place { fault.place ≤ 65536 }
    ensures value { result ≡ code fault }
    ensures greatest { result ≤ 18065536 }
{
    u32::from(fault.refusal) * 1_000_000 + fault.place as u32
}

// 0 for an order line whose numbers are all in range; else the number of the refusal times a million, and its place. The line
// comes without a line feed at its end.
// stays: C is told one number, 0 where there is no refusal, and that it is no greater than 18,065,536.
pub fn sinkerred_order_form(line: &[u8]) -> u32
    ensures verdict { Verdict line.now result }
    ensures greatest { result ≤ 18065536 }
{
    match check_order(line) {
        Ok(_) => 0,
        Err(fault) => code_of(fault),
    }
}

// A line has one verdict only.
pub fn line_has_one_verdict()
    ensures { OneVerdict }
{}
