use cc_base::MemorySink;
use line21_codes::Pair;
use scc_files::{SccPut, SccWriter};
use std::test::Fail;
use time_codes::TimeCode;

#[test]
fn a_failing_sink_is_a_fault(rt: HostRuntime) -> Result<(), Fail> {
    let mut out = MemorySink::new(rt.alloc(), 1000, [1].to_vec(rt.alloc())?)?;
    let last = TimeCode {
        h: 23,
        m: 59,
        s: 59,
        f: 29,
        drop_frame: false,
    };
    match SccWriter::begin(last, &mut out) {
        Ok(mut writer) => {
            assert!(rt;
                writer.pair(0, Pair { a: 0x94, b: 0xAE }, &mut out) == Err(SccPut::Fault)
                    && out.bytes() == b"Scenarist_SCC V1.0\n\n".as_slice()
            );
        }
        Err(_) => panic!(&rt; "the sink failed"),
    }
    Ok(())
}
