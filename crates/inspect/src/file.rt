use crate::opened::Opened;
use hex_text::decode::{HexFault, decode};
use report::console::Console;
use report::failed::Failed;
use std::{fs, io};

// A file by its name, and its bytes.
#[derive(Debug, PartialEq, Drop)]
pub struct File<'n> {
    pub name: &'n str,
    pub bytes: Vec<u8>,
}

// Why a file gives no bytes.
#[derive(Drop)]
enum Unread {
    File(io::Error),
    Text(HexFault),
}

impl From<io::Error> for Unread {
    fn from(error: io::Error) -> Unread {
        Unread::File(error)
    }
}

impl From<HexFault> for Unread {
    fn from(fault: HexFault) -> Unread {
        Unread::Text(fault)
    }
}

// The bytes of a file; those that its text spells where its name ends in .hex.
fn bytes_of(rt: &HostRuntime, name: &str) -> Result<Vec<u8>, Unread> {
    let content = fs::read(rt, name)?;
    if name.ends_with(".hex") {
        Ok(decode(rt.alloc(), content.as_slice())?)
    } else {
        Ok(content)
    }
}

impl<'n> File<'n> {
    // Says why there are no bytes, and fails, where there are none.
    pub fn read(rt: &HostRuntime, name: &'n str) -> Result<File<'n>, Failed> {
        match bytes_of(rt, name) {
            Ok(bytes) => return Ok(File { name, bytes }),
            Err(Unread::File(error)) => {
                eprintln!(rt; "vamluyak: {name} cannot be read: {error}")?
            }
            Err(Unread::Text(HexFault::Line(line))) => {
                let line = line.saturating_add(1);
                eprintln!(rt; "vamluyak: {name}: line {line} is no hexadecimal text")?
            }
            Err(Unread::Text(HexFault::NoMemory)) => {
                eprintln!(rt; "vamluyak: {name}: there is not enough memory")?
            }
        }
        Err(Failed)
    }

    pub fn bytes(&self) -> &[u8] {
        self.bytes.as_slice()
    }

    // What the file holds; says why it is refused, and fails, where it is.
    pub fn open<'a, O: Opened<'a>>(&'a self, console: Console<'_>) -> Result<O, Failed> {
        let mut opened = O::empty(console.rt.alloc())?;
        match opened.take(self.bytes()) {
            Ok(()) => Ok(opened),
            Err(refusal) => console.refuse(O::ROLE, self.name, &refusal),
        }
    }
}
