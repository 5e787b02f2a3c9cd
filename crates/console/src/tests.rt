//! The adapters on real files and on standard output.
use crate::arguments;
use crate::paths::SystemPaths;
use crate::real_files::RealFiles;
use crate::real_sink::RealSink;
use file_core::fault::FileFault;
use file_core::files::Files;
use file_core::sink::Sink;
use std::test::Fail;
use std::{fs, io};

/// Whether calls with nothing open, and on files that cannot be there, fail.
fn fail_with_nothing_open<F: Files>(files: &mut F) -> bool {
    files.read(&mut [0; 4]).is_err()
        && files.append(b"x").is_err()
        && files.open_file(b"no/such/file").is_err()
        && files.create(b"no/such/file").is_err()
}

/// Whether a text that is written to a file is read back to its end, while another file is being written.
fn are_read_back<F: Files>(files: &mut F) -> Result<bool, FileFault> {
    files.create(b"text")?;
    let count = files.append(b"abc")?;
    files.create(b"other")?;
    files.open_file(b"text")?;
    let mut buffer = [0; 4];
    let taken = files.read(&mut buffer)?;
    let rest = files.read(&mut [0; 4])?;
    Ok(count == 3 && taken == 3 && rest == 0 && buffer == *b"abc\0")
}

#[test]
fn real_files_and_standard_output(rt: HostRuntime) -> Result<(), Fail> {
    let mut files = RealFiles::new(SystemPaths::new(&rt));
    assert!(rt; fail_with_nothing_open(&mut files));
    assert!(rt; are_read_back(&mut files)?);
    let mut say = RealSink::new(io::writer(&rt));
    assert_eq!(rt; say.put(b"put\n")?, 4);
    arguments::words(&rt)?;
    fs::remove_file(&rt, "text")?;
    fs::remove_file(&rt, "other")?;
    Ok(())
}
