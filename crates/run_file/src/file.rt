//! A desk's file is read.

ghost use Rattle.std.specs.Prelude.{◌↔◌, ℕ, List, Ok, IsTrue, IfErr, IfOk};
ghost use Rattle.desk_config.specs.Apart.{AreVenues};
ghost use Rattle.desk_config.specs.Config.{AnswersText};
ghost use Rattle.run_file.specs.Fault.{IfOpen, IsToldSo, WantsMemory};

use crate::fault::CommandFault;
use command_line::read_up_to;
use desk_config::{ConfigFault, DeskConfig, read_config};
use std::alloc::Global;
use std::fs::Files;
use std::io::ErrorKind;
use std::{fs, str};

/// The most bytes of a file.
const MAX_FILE: u64 = 1_048_576;

/// Whether a file gives no configuration for lack of memory.
fn wants_memory(fault: &ConfigFault) -> bool
    ensures { IsTrue result ↔ WantsMemory fault.now }
{
    match fault {
        ConfigFault::Toml(error) => error.is_memory(),
        ConfigFault::Key(_) => false,
        ConfigFault::OutOfMemory => true,
    }
}

/// The fault of a file of this name. Out of memory is none of the file's.
fn file_fault(name: String, fault: ConfigFault) -> CommandFault
    ensures memory { IsToldSo result }
    ensures left { IfOpen ⊥ result }
{
    if wants_memory(&fault) {
        CommandFault::OutOfMemory
    } else {
        CommandFault::BadFile { name, fault }
    }
}

/// The configuration that the bytes of a file of this name spell.
fn config_of(alloc: Global, name: &str, bytes: &[u8]) -> Result<DeskConfig, CommandFault>
    ensures says { IfOk result (λ config. AnswersText bytes.now (Ok config)) }
    ensures venues { IfOk result (λ config. AreVenues config.venues.items) }
    ensures memory { IfErr result IsToldSo }
    ensures left { IfErr result (IfOpen ⊥) }
{
    let Ok(text) = str::from_utf8(bytes) else {
        return Err(CommandFault::NotText(String::from_str(alloc, name)?));
    };
    let name = String::from_str(alloc, name)?;
    match read_config(alloc, text) {
        Ok(config) => Ok(config),
        Err(fault) => Err(file_fault(name, fault)),
    }
}

/// The configuration that the file of a name has: which bytes a file gives no contract says.
#[tactic(auto, using(crate::proofs::Ends::of_input))]
pub fn read_file<R: Files>(rt: &R, alloc: Global, name: &str) -> Result<DeskConfig, CommandFault>
    ensures says { IfOk result (λ config. (bytes : List ℕ) × AnswersText bytes (Ok config)) }
    ensures venues { IfOk result (λ config. AreVenues config.venues.items) }
    ensures memory { IfErr result IsToldSo }
    ensures left { IfErr result (IfOpen ⊥) }
{
    let mut file = match fs::open(rt, name) {
        Ok(file) => file,
        Err(error) if error.kind() == ErrorKind::OutOfMemory => {
            return Err(CommandFault::OutOfMemory);
        }
        Err(_) => return Err(CommandFault::NoFile(String::from_str(alloc, name)?)),
    };
    let bytes = read_up_to(alloc, MAX_FILE, &mut file)?;
    config_of(alloc, name, bytes.as_slice())
}
