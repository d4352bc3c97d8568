//! Codes of faults that no command prints. Other tests cover the codes in printed lines.
use crate::asserting::assert_same;
use std::process::Abort;
use stl_file::StlFault;
use sub_io::FaultCode;
use ttx_pes::PesFault;

// Asserts the number and the name of a fault code.
fn assert_code_is(rt: &impl Abort, code: FaultCode, number: u8, name: &str) {
    assert_same(rt, &(code.number(), code.name()), &(number, name));
}

#[test]
fn keeps_a_number_and_a_name(rt: HostRuntime) {
    let longest = FaultCode::new(255, "SixteenLettersOf");
    assert_code_is(&rt, longest, 255, "SixteenLettersOf");
    // Readers return `Ended` if they are called after a fault.
    assert_code_is(&rt, StlFault::Ended.code(), 27, "Ended");
    assert_code_is(&rt, PesFault::Ended.code(), 43, "Ended");
}
