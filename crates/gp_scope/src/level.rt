//! What the declarations among one another give names to.

ghost use Rattle.std.specs.Prelude.{◌≡◌, false, [], ◌∷◌, ◌++◌, IfOk};
ghost use Rattle.gp_values.specs.Names.{has_name};
ghost use Rattle.gp_scope.specs.Names.{meaning_in};
ghost use Rattle.gp_scope.specs.inside.Levels.{names_of, scope_of};

use crate::meaning::Meaning;
use gp_memory::NoMemory;
use gp_syntax::Name;
use gp_values::NameTable;
use std::alloc::Global;
use std::marker::Model;

/// The names that declarations among one another give a meaning to, each once. Contracts see them with their meanings.
pub(crate) struct Level {
    names: NameTable,
    meanings: Vec<Meaning>,
}

impl Drop for Level {
    fn drop(self) {
        let Level { names, meanings } = self;
        drop(names);
        drop(meanings);
    }
}

impl Model for Level {
    ghost use Rattle.std.specs.Prelude.{◌≡◌, length};
    ghost use Rattle.gp_scope.specs.Names.{Scope};
    ghost use Rattle.gp_scope.specs.inside.Levels.{paired};

    ghost Value = { Scope };

    ghost view = { λ l. paired l.names l.meanings.items };

    ghost invariant = { λ l. length l.names ≡ length l.meanings.items };
}

impl Level {
    /// No names.
    pub(crate) fn new(alloc: Global) -> Level
        ensures { result ≡ [] }
    {
        Level {
            names: NameTable::new(alloc),
            meanings: Vec::new(alloc),
        }
    }

    /// With the meaning of a further name.
    pub(crate) fn with(
        self,
        alloc: Global,
        name: &Name,
        meaning: Meaning,
    ) -> Result<Level, NoMemory>
        requires { has_name (names_of self) name.now ≡ false }
        ensures { IfOk result (λ l. l ≡ self ++ (name.now, meaning) ∷ []) }
    {
        let Level {
            mut names,
            mut meanings,
        } = self;
        names.add(alloc, name.as_bytes())?;
        meanings.push(meaning)?;
        Ok(Level { names, meanings })
    }

    /// What the name means here, if it is among them.
    pub(crate) fn meaning(&self, name: &Name) -> Option<Meaning>
        ensures { result ≡ meaning_in self.now name.now }
    {
        let place = self.names.place(name.as_bytes())?;
        Some(self.meanings[place])
    }
}

/// What the name means in the innermost of the levels that has it.
pub(crate) fn meaning_at(levels: &[Level], name: &Name) -> Option<Meaning>
    ensures { result ≡ meaning_in (scope_of levels.now) name.now }
{
    let mut count = levels.len();
    'levels: while count > 0 {
        count -= 1;
        if let Some(meaning) = levels[count].meaning(name) {
            return Some(meaning);
        }
    }
    None
}
