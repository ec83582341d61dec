use command_base::Status;

// Each other status is a run's.
#[test]
fn out_of_memory_has_its_code(rt: HostRuntime) {
    assert!(rt; Status::Memory.code() == 4);
}
