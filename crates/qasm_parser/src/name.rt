//! Names of a program, in 24 bytes each: a statement has up to three, and a tree is a list of statements.

ghost use Rattle.std.specs.Prelude.{◌≡◌, ◌≤◌, [], length, IfOk};

use std::alloc::{AllocError, Global};
use std::marker::Model;
use std::mem::size_of;

/// The most bytes that lie in the value itself.
const ROOM: usize = 22;

/// At most 22 bytes.
#[derive(Drop)]
struct Short {
    len: u8,
    room: [u8; ROOM],
}

impl Model for Short {
    ghost use Rattle.std.specs.Prelude.{◌≤◌, List, take, ℕ};

    ghost Value = { List ℕ };

    ghost view = { λ s. take s.len s.room };

    ghost invariant = { λ s. s.len ≤ 22 };
}

impl Short {
    fn copied(bytes: &[u8]) -> Short
        requires { length bytes.now ≤ 22 }
        ensures { result ≡ bytes.now }
    {
        let mut room = [0; ROOM];
        room[..bytes.len()].copy_from_slice(bytes);
        Short {
            len: bytes.len() as u8,
            room,
        }
    }

    fn as_bytes(&self) -> &[u8]
        ensures { result.now ≡ self.now }
    {
        &self.room[..self.len as usize]
    }
}

/// Where the bytes lie. The tag takes one byte, and a box eight.
#[derive(Drop)]
enum Bytes {
    Short(Short),
    Long(Box<Vec<u8>>),
}

/// A name of a program, or the file that it includes; contracts see its bytes. Up to 22 bytes lie in the value itself.
#[derive(Drop)]
pub struct Name {
    bytes: Bytes,
}

const _: () = prove!(size_of::<Name>() == 24);

impl Model for Name {
    ghost use Rattle.std.specs.Prelude.{List, ℕ};

    ghost Value = { List ℕ };

    ghost use Rattle.qasm_parser.specs.NameBytes.{name_bytes};

    ghost view = { λ n. name_bytes n.bytes };
}

impl Name {
    /// A name without bytes.
    pub(crate) fn empty() -> Name
        ensures { result ≡ [] }
    {
        Name {
            bytes: Bytes::Short(Short::copied(&[])),
        }
    }

    /// A name of these bytes.
    pub fn copied(alloc: Global, bytes: &[u8]) -> Result<Name, AllocError>
        ensures ok { IfOk result (λ n. n ≡ bytes.now) }
    {
        if bytes.len() <= ROOM {
            return Ok(Name {
                bytes: Bytes::Short(Short::copied(bytes)),
            });
        }
        let long = Vec::from_slice(alloc, bytes)?;
        Ok(Name {
            bytes: Bytes::Long(Box::new(alloc, long)?),
        })
    }

    /// The bytes.
    pub fn as_bytes(&self) -> &[u8]
        ensures value { result.now ≡ self.now }
    {
        match &self.bytes {
            Bytes::Short(short) => short.as_bytes(),
            Bytes::Long(long) => long.as_slice(),
        }
    }
}
