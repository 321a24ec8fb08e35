//! The picture of a day.
ghost use Rattle.std.specs.Prelude.{◌≡◌, IfErr, is_none, true};
ghost use Rattle.replay_command.specs.Fault.{IsOfPicture};

use crate::fault::CommandFault;
use dialect::AnyDialect;
use ladder::Ladder;
use replay::World;
use schedule::Event;
use script::{Line, Loss};
use std::alloc::{AllocError, Global};
use std::fs::{Files, OpenOptions};
use std::io::{ErrorKind, Write};

/// A picture before its day, where one is asked for.
pub fn blank(alloc: Global, path: Option<&str>) -> Option<Ladder> {
    match path {
        Some(_) => Some(Ladder::new(alloc)),
        None => None,
    }
}

/// An event that is to happen is seen, where there is a picture.
pub fn see(picture: &mut Option<Ladder>, world: &World<AnyDialect>, event: &Event) {
    if let Some(ladder) = picture {
        ladder.see(world, event);
    }
}

/// The event that was seen, which a line says, is drawn, where there is a picture.
pub fn draw(
    alloc: Global,
    picture: &mut Option<Ladder>,
    world: &World<AnyDialect>,
    line: &Line<'_>,
) -> Result<(), AllocError> {
    match picture {
        Some(ladder) => ladder.draw(alloc, world, line.number, line.text),
        None => Ok(()),
    }
}

/// A world in which the dispatcher is to be killed is seen, where there is a picture.
pub fn see_crash(
    alloc: Global,
    picture: &mut Option<Ladder>,
    world: &World<AnyDialect>,
) -> Result<(), AllocError> {
    match picture {
        Some(ladder) => ladder.see_crash(alloc, world),
        None => Ok(()),
    }
}

/// The crash that was seen, which a line says, is drawn, where there is a picture.
pub fn draw_crash(
    alloc: Global,
    picture: &mut Option<Ladder>,
    world: &World<AnyDialect>,
    loss: &Loss,
    line: &Line<'_>,
) -> Result<(), AllocError> {
    match picture {
        Some(ladder) => ladder.draw_crash(alloc, world, loss.lines(), line.number, line.text),
        None => Ok(()),
    }
}

/// A fault of the picture's file, by its name.
fn fault_of(alloc: Global, path: &str, is_there: bool) -> CommandFault
    ensures { IsOfPicture result }
{
    let Ok(name) = String::from_str(alloc, path) else {
        return CommandFault::OutOfMemory;
    };
    if is_there {
        CommandFault::PictureIsThere(name)
    } else {
        CommandFault::PictureFailed(name)
    }
}

/// Writes a text into a file that isn't there yet.
fn write_new<F: Files>(
    files: &F,
    alloc: Global,
    path: &str,
    text: &[u8],
) -> Result<(), CommandFault>
    ensures { IfErr result IsOfPicture }
{
    let opened = OpenOptions::new()
        .write(true)
        .create_new(true)
        .open(files, path);
    let mut file = match opened {
        Ok(file) => file,
        Err(error) if error.kind() == ErrorKind::OutOfMemory => {
            return Err(CommandFault::OutOfMemory);
        }
        Err(error) => {
            let is_there = error.kind() == ErrorKind::AlreadyExists;
            return Err(fault_of(alloc, path, is_there));
        }
    };
    match file.write_all(text) {
        Ok(()) => Ok(()),
        Err(_) => Err(fault_of(alloc, path, false)),
    }
}

/// Writes a picture into the file of this name, where one is named. A file that is there already is left as it is.
pub fn save<F: Files>(
    files: &F,
    alloc: Global,
    path: Option<&str>,
    picture: &Option<Ladder>,
) -> Result<(), CommandFault>
    ensures only { IfErr result IsOfPicture }
    ensures named { IfErr result (λ _. is_none path.entry ≡ true → ⊥) }
{
    let (Some(path), Some(ladder)) = (path, picture) else {
        return Ok(());
    };
    let text = ladder.svg(alloc)?;
    write_new(files, alloc, path, &text)
}
