//! Names.

ghost use Rattle.std.specs.Prelude.{◌≡◌, IfOk};
ghost use Rattle.gp_values.specs.Names.{same_name};

use gp_memory::NoMemory;
use std::alloc::Global;
use std::fmt;
use std::marker::Model;

/// The name of a rule, a procedure, a variable, a node or an edge, or the word of a mark. Contracts see the list of its
/// bytes.
#[derive(Drop, Debug)]
pub struct Name {
    bytes: Vec<u8>,
}

impl Model for Name {
    ghost use Rattle.gp_values.specs.Names.{Name as Bytes};
    ghost use Rattle.std.specs.Coded.{coded_list, coded_ℕ};

    ghost Value = { Bytes };

    ghost coded = { coded_list coded_ℕ };

    ghost view = { λ n. n.bytes.items };
}

impl Name {
    /// The name of these bytes, copied.
    pub fn from_slice(alloc: Global, bytes: &[u8]) -> Result<Name, NoMemory>
        ensures { IfOk result (λ n. n ≡ bytes.now) }
    {
        let bytes = Vec::from_slice(alloc, bytes)?;
        Ok(Name { bytes })
    }

    /// The bytes, in order.
    pub fn as_bytes(&self) -> &[u8]
        ensures { result.now ≡ self.now }
    {
        &self.bytes
    }

    /// A copy with memory of its own.
    pub fn copy(&self, alloc: Global) -> Result<Name, NoMemory>
        ensures { IfOk result (λ n. n ≡ self.now) }
    {
        Name::from_slice(alloc, self.as_bytes())
    }

    /// Whether both have the same bytes in the same order.
    pub fn same(&self, other: &Name) -> bool
        ensures { result ≡ same_name self.now other.now }
    {
        self.as_bytes() == other.as_bytes()
    }
}

/// Its bytes as characters.
impl fmt::Display for Name {
    fn fmt<W: fmt::Write>(&self, f: &mut fmt::Formatter<W>) -> fmt::Result {
        for byte in self.as_bytes() {
            f.write_char(*byte as char)?;
        }
        Ok(())
    }
}
