use cc_base::{ReaderSource, Source, Took};
use command_base::SideFile;

#[test]
fn a_missing_file_fails_and_no_file_is_empty(rt: HostRuntime) {
    let mut buf = [0; 4];
    let mut missing: SideFile<&[u8]> = SideFile::Missing(0);
    assert!(rt; missing.take(&mut buf) == Took::Failed);
    assert!(rt; matches!(missing, SideFile::Missing(1)));
    let mut empty: SideFile<&[u8]> = SideFile::Empty;
    assert!(rt; empty.take(&mut buf) == Took::End);
    let mut opened: SideFile<&[u8]> = SideFile::Opened(ReaderSource::new(b"ab"));
    assert!(rt; opened.take(&mut buf) == Took::Got(2));
    assert!(rt; opened.take(&mut buf) == Took::End);
}
