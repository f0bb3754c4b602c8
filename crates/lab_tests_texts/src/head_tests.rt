//! The words of faults that no reply tells of.
use lab_wire_heads::HeadFault;
use std::process::Abort;

#[test]
fn faults_of_streams_have_words_alone(rt: HostRuntime) {
    for (fault, number, word) in [
        (HeadFault::Read, None, "read_fault"),
        (HeadFault::Write { sent: 3 }, None, "write_fault"),
        (HeadFault::Memory, Some(90), "memory"),
    ] {
        assert_eq!(rt; (fault.number(), fault.word()), (number, word));
    }
}
