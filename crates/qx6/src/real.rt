//! The real outside: a file, the standard streams and the system's clock.
ghost use Rattle.std.specs.Prelude.{◌≡◌, ◌≤◌, ◌↔◌, [], false, None, length, IsOk, IfOk, OnOk};
ghost use Rattle.std.proofs.lemmas.Bool.{false≢true};
ghost use Rattle.qx_outside.specs.Causes.{HasCause};
ghost use Rattle.qx_outside.specs.Trail.{History};

use qx_outside::{Dev, Failed, Host, Recorded};
use std::fs::{File, OpenOptions};
use std::io;
use std::io::{ErrorKind, Read, Seek, SeekFrom};
use std::os::unix::fs::FileExt;
use std::time::{SystemTime, UNIX_EPOCH};

/// How often a read of the input is tried again that a signal cut off.
const MOST_TRIES: u32 = 1000;

/// A host over the running system. It tells nothing of what is done: a file may be changed by others.
#[derive(Drop)]
pub struct RealHost {
    rt: HostRuntime,
    image: Option<File>,
    dev_faults: u64,
    con_faults: u64,
}

impl RealHost {
    /// A host with no image yet.
    pub fn new(rt: HostRuntime) -> RealHost
        ensures { (result.dev_faults ≡ 0) × (result.con_faults ≡ 0) }
    {
        RealHost {
            rt,
            image: None,
            dev_faults: 0,
            con_faults: 0,
        }
    }

    fn image(&self) -> io::Result<&File> {
        self.image
            .as_ref()
            .ok_or(io::Error::from(ErrorKind::NotFound))
    }
}

impl Dev for RealHost {
    ghost outside = { λ s. record { tells = false; history = record { starting = []; deeds = [] }; extent = None; attached = None; dev_reads = None; dev_faults = s.dev_faults; con_faults = s.con_faults } };

    /// An attach that fails leaves the image that there was.
    fn attach(&mut self, path: &str, create: bool) -> Result<(), Failed> {
        let file = counted(open(&self.rt, path, create), &mut self.dev_faults)?;
        self.image = Some(file);
        Ok(())
    }

    fn len(&mut self) -> Result<u64, Failed> {
        let len = self.image().and_then(|file| end_of(file));
        counted(len, &mut self.dev_faults)
    }

    fn set_len(&mut self, len: u64) -> Result<(), Failed> {
        let done = self.image().and_then(|file| file.set_len(len));
        counted(done, &mut self.dev_faults)
    }

    fn read_at(&mut self, at: u64, into: &mut [u8]) -> Result<(), Failed> {
        let done = self.image().and_then(|file| file.read_exact_at(into, at));
        counted(done, &mut self.dev_faults)
    }

    fn write_at(&mut self, at: u64, bytes: &[u8]) -> Result<(), Failed> {
        let done = self.image().and_then(|file| file.write_all_at(bytes, at));
        counted(done, &mut self.dev_faults)
    }

    fn sync(&mut self) -> Result<(), Failed> {
        let done = self.image().and_then(|file| file.sync_all());
        counted(done, &mut self.dev_faults)
    }

    ghost extent_is = { λ s told. absurd (false≢true told) };
}

impl Recorded for RealHost {
    fn events(&self) -> u64 {
        0
    }
}

impl Host for RealHost {
    fn take(&mut self, into: &mut [u8]) -> Result<usize, Failed> {
        counted(read_input(&self.rt, into), &mut self.con_faults)
    }

    fn put(&mut self, bytes: &[u8]) -> Result<(), Failed> {
        counted(self.rt.write_all(bytes), &mut self.con_faults)
    }

    fn now(&mut self) -> Result<u32, Failed> {
        counted(moment(&self.rt), &mut self.con_faults)
    }
}

/// The answer of a call of the system, and its failure counted.
fn counted<T: Drop>(answer: io::Result<T>, count: &mut u64) -> Result<T, Failed>
    ensures ok { IfOk answer (λ value. result ≡ Ok value) }
    ensures variant { IsOk result ↔ IsOk answer }
    ensures others { OnOk result (count.new ≡ count.old) }
    ensures cause { HasCause count.old count.new result }
{
    match answer {
        Ok(value) => Ok(value),
        Err(_) => {
            *count = count.saturating_add(1);
            Err(Failed)
        }
    }
}

/// Opens a file or a block device as an image. With `create` a missing file is made.
fn open(rt: &HostRuntime, path: &str, create: bool) -> io::Result<File> {
    let file = match OpenOptions::new()
        .read(true)
        .write(true)
        .create(create)
        .open(rt, path)
    {
        // A checker writes nothing, so it can do with a file that may not be written.
        Err(error) if !create && bars_writing(error.kind()) => File::open(rt, path)?,
        opened => opened?,
    };
    if file.metadata()?.is_dir() {
        return Err(io::Error::from(ErrorKind::IsADirectory));
    }
    Ok(file)
}

/// Whether a file that was not opened may still be opened for reading alone.
fn bars_writing(kind: ErrorKind) -> bool {
    kind == ErrorKind::PermissionDenied || kind == ErrorKind::ReadOnlyFilesystem
}

/// The length in bytes. A block device's metadata has none, but its end can be sought; what has no end to seek is no image.
fn end_of(mut file: &File) -> io::Result<u64> {
    file.seek(SeekFrom::End(0))
}

/// Reads standard input once, and again where a signal cut the read off.
fn read_input(rt: &HostRuntime, into: &mut [u8]) -> io::Result<usize>
    ensures { IfOk result (λ n. n ≤ length into.new) }
{
    let mut input = rt.stdin();
    for _ in 0..MOST_TRIES {
        match input.read(into) {
            Ok(count) => return Ok(count),
            Err(error) if error.kind() == ErrorKind::Interrupted => {}
            Err(error) => return Err(error),
        }
    }
    Err(io::Error::from(ErrorKind::Interrupted))
}

/// The moment, in seconds since 1970. The format has 32 bits for one, which end in 2106.
fn moment(rt: &HostRuntime) -> io::Result<u32> {
    let now = SystemTime::now(rt)?;
    match now.duration_since(UNIX_EPOCH) {
        Ok(since) => u32::try_from(since.as_secs()).map_err(|_| io::Error::from(
            ErrorKind::InvalidData,
        )),
        Err(_) => Err(io::Error::from(ErrorKind::InvalidData)),
    }
}

#[cfg(test)]
mod tests {
    use super::*;
    use std::os::unix::fs::PermissionsExt;
    use std::process::Abort;
    use std::rt::Runtime;
    use std::test::Fail;
    use std::{env, fs, process};

    #[test]
    fn a_file_is_a_device(rt: HostRuntime) -> Result<(), Fail> {
        let name = format!(in rt.alloc(); "qx6-test-{}", process::id(rt.process()))?;
        let file = env::temp_dir(&rt)?.join(rt.alloc(), name.as_str())?;
        let path = file.as_str();
        let mut host = RealHost::new(rt);
        a_missing_image_is_a_fault(&rt, &mut host, path)?;
        a_missing_image_is_made_empty(&rt, &mut host, path);
        fs::write(&rt, path, "abcdefgh")?;
        what_is_written_is_read_back(&rt, &mut host, path)?;
        a_folder_and_a_read_past_the_end_are_faults(&rt, &mut host)?;
        a_file_that_may_not_be_written_is_read(&rt, &mut host, path)?;
        fs::remove_file(&rt, path)?;
        Ok(())
    }

    fn a_missing_image_is_a_fault(
        rt: &(impl Runtime + Abort),
        host: &mut RealHost,
        path: &str,
    ) -> Result<(), Fail> {
        assert_eq!(rt; host.attach(path, false), Err(Failed));
        assert!(rt; !fs::exists(rt, path)?);
        assert_eq!(rt; host.len(), Err(Failed));
        assert_eq!(rt; host.dev_faults, 2);
        Ok(())
    }

    fn a_missing_image_is_made_empty(rt: &(impl Runtime + Abort), host: &mut RealHost, path: &str) {
        assert_eq!(rt; host.attach(path, true), Ok(()));
        assert_eq!(rt; host.len(), Ok(0));
        assert_eq!(rt; host.events(), 0);
        assert!(rt; host.now().is_ok());
    }

    fn what_is_written_is_read_back(
        rt: &(impl Runtime + Abort),
        host: &mut RealHost,
        path: &str,
    ) -> Result<(), Fail> {
        let mut bytes = [0u8; 4];
        assert_eq!(rt; host.attach(path, true), Ok(()));
        assert_eq!(rt; host.len(), Ok(8));
        assert_eq!(rt; host.read_at(4, &mut bytes), Ok(()));
        assert_eq!(rt; &bytes, b"efgh");
        assert_eq!(rt; host.write_at(3, b"XY"), Ok(()));
        assert_eq!(rt; host.sync(), Ok(()));
        assert_eq!(rt; fs::read(rt, path)?.as_slice(), b"abcXYfgh".as_slice());
        assert_eq!(rt; host.set_len(10), Ok(()));
        assert_eq!(rt; host.read_at(6, &mut bytes), Ok(()));
        assert_eq!(rt; &bytes, b"gh\0\0");
        assert_eq!(rt; host.dev_faults, 2);
        Ok(())
    }

    fn a_folder_and_a_read_past_the_end_are_faults(
        rt: &(impl Runtime + Abort),
        host: &mut RealHost,
    ) -> Result<(), Fail> {
        let folder = env::temp_dir(rt)?;
        assert_eq!(rt; host.attach(folder.as_str(), false), Err(Failed));
        assert_eq!(rt; host.read_at(7, &mut [0u8; 4]), Err(Failed));
        assert_eq!(rt; host.dev_faults, 4);
        assert_eq!(rt; host.con_faults, 0);
        Ok(())
    }

    fn a_file_that_may_not_be_written_is_read(
        rt: &(impl Runtime + Abort),
        host: &mut RealHost,
        path: &str,
    ) -> Result<(), Fail> {
        let mut bytes = [0u8; 4];
        fs::set_permissions(rt, path, fs::Permissions::from_mode(0o444))?;
        assert_eq!(rt; host.attach(path, false), Ok(()));
        assert_eq!(rt; host.read_at(0, &mut bytes), Ok(()));
        assert_eq!(rt; &bytes, b"abcX");
        Ok(())
    }
}
