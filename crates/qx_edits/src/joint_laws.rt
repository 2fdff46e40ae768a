//! One change of a node that does what two edits ask: two records of one directory, and a long name that comes where another goes.
ghost use Rattle.std.specs.Prelude.{◌≡◌, ◌≢◌, ℕ, ◌+◌, ◌*◌, ◌%◌, ◌<◌, ◌≤◌, ◌↔◌, ◌⊎◌, List, ◌∷◌, ◌++◌, [], None, Some, length, max, true};
ghost use Rattle.qx_fields.specs.Number.{digits};
ghost use Rattle.qx_fields.specs.declared.order.Order.{Order};
ghost use Rattle.qx_geom.specs.Lists.{is_in};
ghost use Rattle.qx_nodes.specs.NodeContents.{IsSameContent, NodeContent};
ghost use Rattle.qx_ptree.specs.declared.change.Change.{Change};
ghost use Rattle.qx_ptree.specs.Fates.{written_by};
ghost use Rattle.qx_records.specs.NameRecord.{RawRecord, raw_in};
ghost use Rattle.qx_batch.specs.Changes.{changed_content};
ghost use Rattle.qx_batch.specs.PutNodes.{put_content};
ghost use Rattle.qx_model.specs.Edits.{leaf_of_record};
ghost use Rattle.qx_model.specs.Whole.{HoldsRecords};
ghost use Rattle.qx_long.specs.NamePlans.{unless};
ghost use Rattle.qx_edits.specs.NameEdits.{AddsName, DropsName};
ghost use Rattle.qx_edits.specs.PutContents.{IsOverBlocks, IsPutInto};
ghost use Rattle.qx_edits.specs.RecordEdits.{SetsRecord, size_with_record};

/// Two records of one directory are put, the second maybe in a leaf more: one content stands between, in which the first alone is set.
pub fn two_records_are_put()
    ensures { (order : Order) (blocksize k j : ℕ) (first second : RawRecord) (bytes others : List ℕ) (c : Change) (a b : NodeContent) → HoldsRecords blocksize → IsOverBlocks blocksize a → a.size % blocksize ≡ 0 → k * 32 < a.size → j * 32 ≤ a.size
        → c.size ≡ size_with_record blocksize j a.size → ((i : ℕ) → (is_in (written_by c) i ≡ true) ↔ ((i ≡ leaf_of_record blocksize k) ⊎ (i ≡ leaf_of_record blocksize j))) → c.gone ≡ None
        → length bytes ≡ 32 → raw_in order bytes ≡ first → length others ≡ 32 → raw_in order others ≡ second
        → IsSameContent blocksize (put_content blocksize (j * 32) others (put_content blocksize (k * 32) bytes (changed_content blocksize c a))) b
        → (w : NodeContent) × SetsRecord order blocksize k first a w × SetsRecord order blocksize j second w b }
{}

/// A long name goes and another comes, at the same number or at another: one content stands between, in which the first has gone.
pub fn a_long_name_is_exchanged()
    ensures { (order : Order) (blocksize k q : ℕ) (name : List ℕ) (c : Change) (a b : NodeContent) → 0 < blocksize → IsOverBlocks blocksize a → 0 < length name → length name ≤ 510 → 2 + length name ≤ blocksize
        → c.size ≡ max a.size ((k + 1) * blocksize) → written_by c ≡ k ∷ [] → c.gone ≡ unless k (Some q)
        → IsPutInto blocksize c (k * blocksize) (digits order 2 (length name) ++ name) a b → (w : NodeContent) × DropsName order blocksize q a w × AddsName order blocksize k name w b }
{}
