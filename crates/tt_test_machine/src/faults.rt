//! Faults as text.

use tt_core::Fault;
use tt_test_words::Line;

/// Puts a fault in the form of the program's messages.
pub fn put_fault(line: &mut Line, fault: Fault) {
    line.put(fault.tag());
    line.put("+");
    line.put_number(i64::from(fault.offset));
    line.put(":");
    line.put_field(i64::from(fault.why.number()));
    line.put(" ");
    line.put(fault.why.name());
}
