//! Laws of long names and of the changes that add and drop them.
ghost use Rattle.std.specs.Prelude.{◌≡◌, ℕ, ◌+◌, ◌*◌, ◌%◌, ◌^◌, ◌<◌, ◌≤◌, ◌↔◌, not, ◌&&◌, ◌||◌, true, List, Option, None, IfSome, IsTrue};
ghost use Rattle.qx_geom.specs.declared.root.Root.{Root};
ghost use Rattle.qx_geom.specs.Layout.{is_block_size};
ghost use Rattle.qx_geom.specs.Lists.{is_in};
ghost use Rattle.qx_geom.specs.Pointer.{ceil_div, reach};
ghost use Rattle.qx_geom.specs.Positions.{is_named, present_after};
ghost use Rattle.qx_nodes.specs.BlockMap.{BlockMap};
ghost use Rattle.qx_nodes.specs.Leaves.{Hole, leaf_of, leaves_below};
ghost use Rattle.qx_nodes.specs.Visits.{LiesBelow};
ghost use Rattle.qx_ptree.specs.Fates.{IsChange, leaves_after, written_by};
ghost use Rattle.qx_nodes.specs.LongNames.{long_name};
ghost use Rattle.qx_long.specs.AbsentNumbers.{HasLeaves, IsAbsent};
ghost use Rattle.qx_long.specs.NamePlans.{name_change};

/// A number is absent exactly where its leaf is a hole or lies past the size, and no name has an absent number.
pub fn an_absent_number_has_a_hole()
    ensures below { (m : BlockMap) (long : Root) (n : ℕ) → HasLeaves m long → LiesBelow m long n → IsAbsent m long n ↔ (leaf_of m long n ≡ Hole) }
    ensures past { (m : BlockMap) (long : Root) (n : ℕ) → leaves_below m long ≤ n → IsAbsent m long n }
    ensures unnamed { (m : BlockMap) (long : Root) (n : ℕ) → HasLeaves m long → LiesBelow m long n → IsAbsent m long n → long_name m long n ≡ None }
{}

/// A plan is a change that may be made of a Longfile that 5 levels reach. Its size doesn't fall, and stays a whole number of leaves.
pub fn a_plan_may_be_made()
    ensures change { (long : Root) (add drop : Option ℕ) (blocksize : ℕ) → IsTrue (is_block_size blocksize) → long.size ≤ reach blocksize 5 * blocksize
        → IfSome add (λ n. n < 2 ^ 32) → IsChange blocksize (name_change long add drop blocksize) }
    ensures grows { (long : Root) (add drop : Option ℕ) (blocksize : ℕ) → long.size ≤ (name_change long add drop blocksize).size }
    ensures whole { (long : Root) (add drop : Option ℕ) (blocksize : ℕ) → long.size % blocksize ≡ 0 → (name_change long add drop blocksize).size % blocksize ≡ 0 }
{}

/// After a plan the present leaves are the old ones, with that of the added name and without that of the dropped one.
pub fn the_leaves_after_a_plan()
    ensures { (long : Root) (present : List ℕ) (add drop : Option ℕ) (blocksize i : ℕ) → IsTrue (is_block_size blocksize) → ((j : ℕ) → is_in present j ≡ true → j < ceil_div long.size blocksize)
        → is_in (present_after present (leaves_after blocksize (name_change long add drop blocksize)) (written_by (name_change long add drop blocksize)) (name_change long add drop blocksize).gone) i
        ≡ (is_named add i || (is_in present i && not (is_named drop i))) }
{}
