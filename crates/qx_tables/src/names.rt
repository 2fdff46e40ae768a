//! The names of the directory under the walk.

use qx_pointers::Halt;
use std::alloc::Global;
use std::collections::BTreeSet;

/// The names that earlier rows of a directory have.
#[derive(Drop)]
pub struct Names {
    alloc: Global,
    names: BTreeSet<Vec<u8>>,
}

impl Names {
    ghost use Rattle.std.specs.Prelude.{◌≡◌, ◌∷◌, [], ℕ, List, IfOk, OnOk, OnErr, Err, bytes_eq, not};
    ghost use Rattle.std.specs.List.{list_any};
    ghost use Rattle.qx_pointers.specs.declared.halt.Halt.TheVariants as halts;
    ghost use Rattle.qx_tables.specs.Tables.{HasNames};

    /// No names.
    pub fn new(alloc: Global) -> Names
        ensures { HasNames result [] }
    {
        Names {
            alloc,
            names: BTreeSet::new(alloc),
        }
    }

    /// Puts a name into the set, and says whether it is new there.
    pub fn add(&mut self, name: &[u8]) -> Result<bool, Halt>
        ensures new { (names : List (List ℕ)) → HasNames self.old names
            → IfOk result (λ new. new ≡ not (list_any (λ other. bytes_eq other name.now) names)) }
        ensures names { (names : List (List ℕ)) → HasNames self.old names
            → OnOk result (HasNames self.new (name.now ∷ names)) }
        ensures no_fault { OnErr result (result ≡ Err halts.NoMemory) }
    {
        let key = name.to_vec(self.alloc)?;
        match self.names.insert(key) {
            Ok(new) => Ok(new),
            Err(_) => Err(Halt::NoMemory),
        }
    }

    /// Forgets all names.
    pub fn clear(&mut self)
        ensures { HasNames self.new [] }
    {
        self.names.clear();
    }
}

#[cfg(test)]
mod tests {
    use super::*;
    use std::test::Fail;

    #[test]
    fn a_name_is_new_once_until_all_are_forgotten(rt: HostRuntime) -> Result<(), Fail> {
        let cases: [(&[u8], bool); 6] = [
            (b"a", true),
            (b"ab", true),
            (b"a", false),
            (b"A", true),
            (b"\xFF", true),
            (b"ab", false),
        ];
        let mut names = Names::new(rt.alloc());
        for (name, new) in cases {
            assert_eq!(rt; names.add(name), Ok(new));
        }
        names.clear();
        assert_eq!(rt; names.add(b"a"), Ok(true));
        Ok(())
    }
}
