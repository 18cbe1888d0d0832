// The disk of the machine. Each method is one call of the system, or the few of them that POSIX wants for it.

ghost use Rattle.std.specs.Prelude.{◌≤◌, ◌<◌, ℕ, [], None, false, IfOk, IsErrOf, vec_len};
ghost use Rattle.outside_io.specs.Disk.{Special};

use crate::disk::tally;
use crate::streams::{read_within, write_all};
use crate::{Disk, Found, ReadFault, WriteFault};
use std::alloc::Global;
use std::fs::{Metadata, OpenFile, OpenOptions};
use std::io::{Error, ErrorKind};
use std::os::unix::fs::{MetadataExt, OpenOptionsExt, chown};
use std::path::{Path, PathBuf};
use std::rt::Files;
use std::{fs, io};

// How many names are tried for a new file.
const MOST_NAMES: u32 = 1000;

// How many paths are looked at on the way from a name to its file. The links on this way are fewer.
const MOST_LINKS: u32 = 40;

// The file that is being made: its path, the file, and what describes the file in place of which it is made, if there is one.
#[derive(Drop)]
struct Made<F: Drop> {
    path: PathBuf,
    file: F,
    found: Option<Metadata>,
}

/// The files of the machine. Contracts do not know what is in them.
#[derive(Drop)]
pub struct HostDisk<'r, R: Files + AllocGlobal> {
    rt: &'r R,
    made: Option<Made<R::File>>,
    refusals: u64,
}

impl<'r, R: Files + AllocGlobal> HostDisk<'r, R> {
    /// The files that this runtime reaches.
    pub fn new(rt: &'r R) -> HostDisk<'r, R> {
        HostDisk {
            rt,
            made: None,
            refusals: 0,
        }
    }
}

impl<R: Files + AllocGlobal> Disk for HostDisk<'_, R> {
    ghost told = { false };

    ghost leads = { λ d name. Special None };

    ghost under = { λ d place. None };

    ghost taken = { λ d name. [] };

    ghost made = { λ d. None };

    ghost holds = { λ d place bytes. ⊥ };

    ghost may_leave = { λ d place c. ⊥ };

    ghost moment = { λ d. 0 };

    ghost left_since = { λ d t place c. ⊥ };

    ghost refusals = { λ d. d.refusals };

    ghost counts_now = { λ d t place c le now. now };

    ghost only_now = { λ d place c left. left };

    fn read(&mut self, alloc: Global, name: &str, cap: u64) -> Result<Vec<u8>, ReadFault> {
        let answer = read_file(self.rt, alloc, name, cap);
        tally(&mut self.refusals, &answer);
        answer
    }

    fn find(&mut self, name: &str) -> Result<Found, WriteFault> {
        let answer = look(self.rt, name);
        tally(&mut self.refusals, &answer);
        answer
    }

    fn create(&mut self, beside: &str) -> Result<(), WriteFault> {
        let answer = match new_file_beside(self.rt, Path::new(beside)) {
            Ok(made) => {
                self.made = Some(made);
                Ok(())
            }
            Err(error) => Err(WriteFault::from(error)),
        };
        tally(&mut self.refusals, &answer);
        answer
    }

    fn write(&mut self, bytes: &[u8]) -> Result<(), WriteFault> {
        let answer = append(&mut self.made, bytes);
        tally(&mut self.refusals, &answer);
        answer
    }

    fn keep_permissions(&mut self) -> Result<(), WriteFault> {
        let answer = keep_owner_and_mode(self.rt, &self.made);
        tally(&mut self.refusals, &answer);
        answer
    }

    fn sync(&mut self) -> Result<(), WriteFault> {
        let answer = sync_file(&self.made);
        tally(&mut self.refusals, &answer);
        answer
    }

    fn take_place(&mut self, to: &str) -> Result<(), WriteFault> {
        let answer = rename_to(self.rt, &self.made, to);
        if answer.is_ok() {
            self.made = None;
        }
        tally(&mut self.refusals, &answer);
        answer
    }

    fn settle(&mut self, at: &str) -> Result<(), WriteFault> {
        let answer = sync_folder(self.rt, Path::new(at));
        tally(&mut self.refusals, &answer);
        answer
    }

    fn remove(&mut self) -> Result<(), WriteFault> {
        let answer = remove_made(self.rt, &self.made);
        self.made = None;
        tally(&mut self.refusals, &answer);
        answer
    }

    fn pour(&mut self, name: &str, bytes: &[u8]) -> Result<(), WriteFault> {
        let answer = pour_into(self.rt, name, bytes);
        tally(&mut self.refusals, &answer);
        answer
    }
}

// The bytes of a file, if there are at most `cap` of them.
fn read_file<R: Files>(rt: &R, alloc: Global, name: &str, cap: u64) -> Result<Vec<u8>, ReadFault>
    ensures within { IfOk result (λ bytes. vec_len bytes ≤ cap) }
    ensures past { (long : ℕ) → IsErrOf result (ReadFault.TooLong long) → cap < long }
{
    let mut file = fs::open(rt, name)?;
    read_within(&mut file, alloc, cap)
}

// What a name leads to. An ordinary file is opened to be written, since a file that may not be written is refused.
fn look<R: Files + AllocGlobal>(rt: &R, name: &str) -> Result<Found, WriteFault> {
    let Some(path) = behind_links(rt, name)? else {
        return Ok(Found::Special);
    };
    match fs::symlink_metadata(rt, path.as_path()) {
        Ok(found) if !found.is_file() => return Ok(Found::Special),
        Ok(_) => {
            OpenOptions::new().write(true).open(rt, path.as_path())?;
        }
        Err(error) if error.kind() == ErrorKind::NotFound => {}
        Err(error) => return Err(WriteFault::from(error)),
    }
    Ok(Found::At(String::from_str(rt.alloc(), path.as_path().as_str())?))
}

// The path to which a name leads when its links are followed. Nothing need be there. `None` if one of them is a link of /proc,
// because those lead to files that are open. The error is `InvalidInput` if there are too many links.
fn behind_links<R: Files + AllocGlobal>(rt: &R, name: &str) -> io::Result<Option<PathBuf>> {
    let mut path = PathBuf::from_str(rt.alloc(), name)?;
    for _ in 0..MOST_LINKS {
        if !path.as_path().is_symlink(rt) {
            return Ok(Some(path));
        }
        if is_of_proc(rt, path.as_path())? {
            return Ok(None);
        }
        let link = fs::read_link(rt, path.as_path())?;
        path = beside(rt, path.as_path(), link.as_path().as_str())?;
    }
    Err(Error::from(ErrorKind::InvalidInput))
}

// Whether a link is on the file system that is mounted at /proc; `false` if the system does not show /proc.
fn is_of_proc<R: Files>(rt: &R, link: Path<'_>) -> io::Result<bool> {
    let device = fs::symlink_metadata(rt, link)?.dev();
    match fs::metadata(rt, "/proc") {
        Ok(proc) => Ok(proc.dev() == device),
        Err(_) => Ok(false),
    }
}

// The path of a name that is taken from the folder of a file. The error is `NotFound` if the file has no folder.
fn beside<R: AllocGlobal>(rt: &R, file: Path<'_>, name: &str) -> io::Result<PathBuf> {
    match file.parent() {
        Some(folder) => Ok(folder.join(rt.alloc(), name)?),
        None => Err(Error::from(ErrorKind::NotFound)),
    }
}

// Makes a new, empty file in the folder of `target`. If a file is found there, only the owner of the new one may open it yet.
// The error is `AlreadyExists` if every name that is tried is taken.
fn new_file_beside<R: Files + AllocGlobal>(rt: &R, target: Path<'_>) -> io::Result<Made<R::File>> {
    let found = fs::symlink_metadata(rt, target).ok();
    let mode = if found.is_some() { 0o600 } else { 0o666 };
    for number in 0..MOST_NAMES {
        let name = format!(in rt.alloc(); ".wasabi-{number}.new")?;
        let path = beside(rt, target, name.as_str())?;
        let mut options = OpenOptions::new();
        options.write(true).create_new(true).mode(mode);
        match options.open(rt, path.as_path()) {
            Ok(file) => return Ok(Made { path, file, found }),
            Err(error) if error.kind() == ErrorKind::AlreadyExists => {}
            Err(error) => return Err(error),
        }
    }
    Err(Error::from(ErrorKind::AlreadyExists))
}

// Writes bytes to the file that is being made.
fn append<F: io::Write + Drop>(made: &mut Option<Made<F>>, bytes: &[u8]) -> Result<(), WriteFault> {
    match made {
        Some(made) => Ok(write_all(&mut made.file, bytes)?),
        None => Err(WriteFault::Failed),
    }
}

// Gives the file that is being made the permissions of the file in place of which it is made, and its owner as far as
// `keep_owner` can.
fn keep_owner_and_mode<R: Files>(rt: &R, made: &Option<Made<R::File>>) -> Result<(), WriteFault> {
    let Some(made) = made else {
        return Err(WriteFault::Failed);
    };
    if let Some(found) = &made.found {
        keep_owner(rt, &made.file.metadata()?, made.path.as_path(), found);
        made.file.set_permissions(found.permissions())?;
    }
    Ok(())
}

// Gives a new file the owner and the group of the file that is found. If the system does not allow that, it tries the group
// only.
fn keep_owner<R: Files>(rt: &R, new: &Metadata, name: Path<'_>, found: &Metadata) {
    if new.uid() == found.uid() && new.gid() == found.gid() {
        return;
    }
    if chown(rt, name, Some(found.uid()), Some(found.gid())).is_err() {
        let _ = chown(rt, name, None, Some(found.gid()));
    }
}

// Writes the file that is being made to its disk.
fn sync_file<F: OpenFile + Drop>(made: &Option<Made<F>>) -> Result<(), WriteFault> {
    match made {
        Some(made) => Ok(made.file.sync_all()?),
        None => Err(WriteFault::Failed),
    }
}

// Gives the file that is being made a path, in place of what is there.
fn rename_to<R: Files>(rt: &R, made: &Option<Made<R::File>>, to: &str) -> Result<(), WriteFault> {
    match made {
        Some(made) => Ok(fs::rename(rt, made.path.as_path(), to)?),
        None => Err(WriteFault::Failed),
    }
}

// Writes the folder of a path to its disk.
fn sync_folder<R: Files>(rt: &R, path: Path<'_>) -> Result<(), WriteFault> {
    match path.parent() {
        Some(folder) if folder.as_str().is_empty() => Ok(fs::open(rt, ".")?.sync_all()?),
        Some(folder) => Ok(fs::open(rt, folder)?.sync_all()?),
        None => Err(WriteFault::Failed),
    }
}

// Removes the file that is being made.
fn remove_made<R: Files>(rt: &R, made: &Option<Made<R::File>>) -> Result<(), WriteFault> {
    match made {
        Some(made) => Ok(fs::remove_file(rt, made.path.as_path())?),
        None => Err(WriteFault::Failed),
    }
}

// Writes bytes to what is under a name. An ordinary file is cut first.
fn pour_into<R: Files>(rt: &R, name: &str, bytes: &[u8]) -> Result<(), WriteFault> {
    let mut there = OpenOptions::new().write(true).open(rt, name)?;
    if there.metadata()?.is_file() {
        there.set_len(0)?;
    }
    Ok(write_all(&mut there, bytes)?)
}
