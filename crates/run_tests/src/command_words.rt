//! Words of a command line: which name a side file, and how a run ends whose words can't be read.

use cc_base::MemorySink;
use memory_runs::{Status, run_without_words, side_of};
use std::io::ErrorKind;
use std::test::Fail;

#[test]
fn verify_insert_dual_xds_and_fit_name_a_side_file(rt: HostRuntime) -> Result<(), Fail> {
    const LINES: &[(&str, Option<&str>)] = &[
        ("verify|list.csv", Some("list.csv")),
        ("insert|list.csv", Some("list.csv")),
        ("insert|", Some("")),
        ("dual|list.csv", Some("list.csv")),
        ("dual", None),
        ("xds|packets.csv", Some("packets.csv")),
        ("xds", None),
        ("xds-show|packets.csv", None),
        ("fit|45|list.csv", Some("list.csv")),
        ("fit|45", None),
        ("fit|1001|list.csv", None),
        ("verify", None),
        ("verify|a|b", None),
        ("show|3", None),
        ("decode", None),
    ];
    let alloc = rt.alloc();
    for &(line, path) in LINES {
        let mut words = Vec::new(alloc);
        for word in line.split('|') {
            words.push(String::from_str(alloc, word)?)?;
        }
        assert!(rt; side_of(&words) == path);
    }
    Ok(())
}

#[test]
fn a_word_that_is_not_utf_8_is_usage(rt: HostRuntime) -> Result<(), Fail> {
    let alloc = rt.alloc();
    let mut err = MemorySink::new(alloc, 300, Vec::new(alloc))?;
    let status = run_without_words(ErrorKind::InvalidData, &mut err);
    assert!(rt; status == Status::Usage);
    assert!(rt; err.bytes().starts_with(b"usage: ccsuite pairs|build|"));
    Ok(())
}
