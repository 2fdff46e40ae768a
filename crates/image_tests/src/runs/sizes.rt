//! Sizes as words, by the definition that `run` goes by.
ghost use Rattle.std.specs.Prelude.{◌≡◌, ◌∷◌, [], Some, None, codes};
ghost use Rattle.qx_top.specs.Sizes.{size_of};

/// What words say. Of a size that is no volume's a run tells no more than on which side it lies.
#[tactic(auto, unfolding(qx_top::specs::Sizes::size_of, qx_top::specs::Sizes::units_of))]
fn sizes_of_words()
    ensures zero { size_of (codes "0") ≡ Some 0 }
    ensures zeros { size_of (codes "000065536") ≡ Some 65536 }
    ensures kibibytes { size_of (codes "010K") ≡ Some 10240 }
    ensures mebibytes { size_of (codes "16M") ≡ Some 16777216 }
    ensures gibibytes { size_of (codes "3G") ≡ Some 3221225472 }
    ensures greatest { size_of (codes "18446744073709551615") ≡ Some 18446744073709551615 }
    ensures most_gibibytes { size_of (codes "17179869183G") ≡ Some 18446744072635809792 }
    ensures many_zeros { size_of (codes "0000000000000000000000000000001K") ≡ Some 1024 }
    ensures no_digit { size_of (codes "K") ≡ None }
    ensures other_unit { size_of (codes "1T") ≡ None }
    ensures other_digit { size_of (49 ∷ 217 ∷ 160 ∷ []) ≡ None }
{}
