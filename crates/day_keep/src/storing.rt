// The day's file under a name, so that after a power cut there is no file of that name or a whole one: it is written under
// another name, synced and read back, and gets its name only then.
ghost use Rattle.day_keep.specs.Storing.{Checked, CheckedBack};

use std::fs::File;
use std::io::{ErrorKind, Write};
use std::rt::Clock;
use std::{fmt, io};
use system::files;

// What was being done when something failed.
#[derive(Clone, Copy)]
pub enum Step {
    Looking,
    Making,
    Writing,
    Syncing,
    Reading,
    Naming,
    Folder,
}

// Why a file was not kept: another one stands under its name, it was read back as something else, or a step failed.
#[derive(Clone, Copy)]
pub enum Failure {
    Other,
    Changed,
    Failed { step: Step, error: io::Error },
}

impl fmt::Display for Step {
    fn fmt<W: fmt::Write>(&self, f: &mut fmt::Formatter<W>) -> fmt::Result {
        match *self {
            Step::Looking => f.write_str("reading the file of that name"),
            Step::Making => f.write_str("making a file beside it"),
            Step::Writing => f.write_str("writing"),
            Step::Syncing => f.write_str("syncing"),
            Step::Reading => f.write_str("reading back"),
            Step::Naming => f.write_str("renaming"),
            Step::Folder => f.write_str("syncing the folder"),
        }
    }
}

impl fmt::Display for Failure {
    fn fmt<W: fmt::Write>(&self, f: &mut fmt::Formatter<W>) -> fmt::Result {
        match *self {
            Failure::Other => f.write_str("the file of that name has other bytes"),
            Failure::Changed => f.write_str("what was read back is not what was written"),
            Failure::Failed { step, error } => {
                let number = system::number(&error);
                write!(f, "{step} failed (error {number})")
            }
        }
    }
}

impl Step {
    fn failed(self, error: io::Error) -> Failure {
        Failure::Failed { step: self, error }
    }
}

// Writes the file whole.
pub fn write<W: Write>(rt: &impl Clock, writer: &mut W, file: &[u8]) -> Result<(), Failure> {
    match system::write_all(rt, writer, file) {
        Ok(_) => Ok(()),
        Err(stop) => Err(Step::Writing.failed(stop.error)),
    }
}

// Whether the file stands under its name, with these very bytes; nothing does if not. One that does is synced: the run that made it
// may have been cut short.
fn stands(rt: &HostRuntime, name: &[u8], file: &[u8], back: &mut [u8]) -> Result<bool, Failure> {
    let mut opened = match files::open(rt, name) {
        Ok(opened) => opened,
        Err(e) if e.kind() == ErrorKind::NotFound => {
            return Ok(false);
        }
        Err(e) => {
            return Err(Step::Looking.failed(e));
        }
    };
    let n = files::read_whole(rt, &mut opened, back).map_err(|e| Step::Looking.failed(e))?;
    if file != &back[..n] {
        return Err(Failure::Other);
    }
    opened.sync_all().map_err(|e| Step::Looking.failed(e))?;
    Ok(true)
}

// The bytes that were read back are those that were written, and a file of the day.
fn judge(file: &[u8], read: &[u8]) -> Result<(), Failure>
    ensures { Checked result file.now read.now }
{
    if file != read {
        return Err(Failure::Changed);
    }
    match day::check(read) {
        Ok(_) => Ok(()),
        Err(_) => Err(Failure::Changed),
    }
}

fn read_back(
    rt: &HostRuntime,
    opened: &mut File,
    file: &[u8],
    back: &mut [u8],
) -> Result<(), Failure>
    ensures { CheckedBack result file.now back.new }
{
    match files::read_whole(rt, opened, back) {
        Ok(n) => judge(file, &back[..n]),
        Err(e) => Err(Step::Reading.failed(e)),
    }
}

// Writes the file, reads it back when it is on the disk, and closes it.
fn fill(rt: &HostRuntime, mut opened: File, file: &[u8], back: &mut [u8]) -> Result<(), Failure> {
    write(rt, &mut opened, file)?;
    files::share(&opened).map_err(|e| Step::Writing.failed(e))?;
    opened.sync_all().map_err(|e| Step::Syncing.failed(e))?;
    read_back(rt, &mut opened, file, back)
}

// Fills the file and gives it its name, and answers whether it has it: the name is looked at once more right before, since another
// run may have given it to the same bytes.
fn fill_and_name(
    rt: &HostRuntime,
    opened: File,
    path: &[u8],
    name: &[u8],
    file: &[u8],
    back: &mut [u8],
) -> Result<bool, Failure> {
    fill(rt, opened, file, back)?;
    if stands(rt, name, file, back)? {
        return Ok(false);
    }
    files::rename(rt, path, name).map_err(|e| Step::Naming.failed(e))?;
    Ok(true)
}

// Makes the file beside its name first. One that did not get the name is removed.
fn make(rt: &HostRuntime, name: &[u8], file: &[u8], back: &mut [u8]) -> Result<(), Failure> {
    let mut path = [0u8; 4104];
    let made = files::make_beside(rt, name, &mut path).map_err(|e| Step::Making.failed(e))?;
    let path = &path[..made.name];
    let named = fill_and_name(rt, made.file, path, name, file, back);
    if !matches!(named, Ok(true)) {
        let _ = files::remove(rt, path);
    }
    named?;
    Ok(())
}

// Keeps the file under its name, and syncs the folder too.
pub fn store(rt: &HostRuntime, name: &[u8], file: &[u8], back: &mut [u8]) -> Result<(), Failure> {
    if !stands(rt, name, file, back)? {
        make(rt, name, file, back)?;
    }
    files::sync_folder(rt, name).map_err(|e| Step::Folder.failed(e))
}
