//! What changes of nodes and the bytes that are put into them make of records, long names and files.
ghost use Rattle.std.specs.Prelude.{◌≡◌, ℕ, ◌+◌, ◌*◌, ◌%◌, ◌<◌, ◌≤◌, List, [], ◌∷◌, ◌++◌, None, Some, IsTrue, length, max, true};
ghost use Rattle.qx_blocks.specs.BlockState.{BlockState};
ghost use Rattle.qx_fields.specs.Number.{digits};
ghost use Rattle.qx_fields.specs.declared.order.Order.{Order};
ghost use Rattle.qx_geom.specs.declared.root.Root.{Root};
ghost use Rattle.qx_geom.specs.Lists.{is_in};
ghost use Rattle.qx_nodes.specs.NodeContents.{IsSameContent, NodeContent, bytes_in, node_content};
ghost use Rattle.qx_ptree.specs.declared.change.Change.{Change};
ghost use Rattle.qx_ptree.specs.Fates.{leaves_after, written_by};
ghost use Rattle.qx_ptree.specs.Trees.{IsToldNode, block_map};
ghost use Rattle.qx_records.specs.NameRecord.{RawRecord, raw_in};
ghost use Rattle.qx_batch.specs.Changes.{changed_content};
ghost use Rattle.qx_batch.specs.PutNodes.{has_byte, put_content};
ghost use Rattle.qx_bytes.specs.Ranges.{put_at};
ghost use Rattle.qx_outside.specs.Trail.{resized};
ghost use Rattle.qx_model.specs.Edits.{leaf_of_record};
ghost use Rattle.qx_model.specs.Whole.{HoldsRecords};
ghost use Rattle.qx_edits.specs.NameEdits.{AddsName, DropsName};
ghost use Rattle.qx_edits.specs.PutContents.{HasZerosBehind, IsOverBlocks, IsPutInto};
ghost use Rattle.qx_edits.specs.RecordEdits.{SetsRecord, size_with_record};

/// A node's content is one over blocks, where bytes are told. It stays one through a change that writes leaves below its size, and while bytes are put into leaves that are present.
pub fn a_content_lies_over_blocks()
    ensures told { (order : Order) (m : BlockState) (node : Root) → IsToldNode order m node → IsTrue m.tells → IsOverBlocks m.holdings.size (node_content (block_map order m) node) }
    ensures changed { (blocksize : ℕ) (c : Change) (a : NodeContent) → IsOverBlocks blocksize a → ((i : ℕ) → is_in (written_by c) i ≡ true → i < leaves_after blocksize c) → IsOverBlocks blocksize (changed_content blocksize c a) }
    ensures put { (blocksize at : ℕ) (bytes : List ℕ) (a : NodeContent) → 0 < blocksize → IsOverBlocks blocksize a → ((i : ℕ) → has_byte blocksize at (length bytes) i ≡ true → is_in a.present i ≡ true)
        → IsOverBlocks blocksize (put_content blocksize at bytes a) }
{}

/// A change and then bytes put are one step; so is the change alone, where nothing is put.
pub fn a_change_and_a_put_are_one()
    ensures both { (blocksize : ℕ) (c : Change) (at : ℕ) (bytes : List ℕ) (a b d : NodeContent) → IsSameContent blocksize (changed_content blocksize c a) b → IsSameContent blocksize (put_content blocksize at bytes b) d → IsPutInto blocksize c at bytes a d }
    ensures change { (blocksize : ℕ) (c : Change) (at : ℕ) (a b : NodeContent) → IsSameContent blocksize (changed_content blocksize c a) b → IsPutInto blocksize c at [] a b }
{}

/// Where the leaf of a record is written and its 32 bytes are put, the record says what they do, and each other one what it did.
pub fn a_record_is_put()
    ensures { (order : Order) (blocksize k : ℕ) (raw : RawRecord) (bytes : List ℕ) (c : Change) (a b : NodeContent) → HoldsRecords blocksize → IsOverBlocks blocksize a → a.size % blocksize ≡ 0 → k * 32 ≤ a.size
        → c.size ≡ size_with_record blocksize k a.size → written_by c ≡ leaf_of_record blocksize k ∷ [] → c.gone ≡ None → length bytes ≡ 32 → raw_in order bytes ≡ raw
        → IsPutInto blocksize c (k * 32) bytes a b → SetsRecord order blocksize k raw a b }
{}

/// Where the leaf of a number is written, and a name's length and the name are put at its begin, the number has the name, and each other number what it had; where a leaf is taken out, its number has none.
pub fn a_long_name_is_put()
    ensures added { (order : Order) (blocksize k : ℕ) (name : List ℕ) (c : Change) (a b : NodeContent) → 0 < blocksize → IsOverBlocks blocksize a → 0 < length name → length name ≤ 510 → 2 + length name ≤ blocksize
        → c.size ≡ max a.size ((k + 1) * blocksize) → written_by c ≡ k ∷ [] → c.gone ≡ None
        → IsPutInto blocksize c (k * blocksize) (digits order 2 (length name) ++ name) a b → AddsName order blocksize k name a b }
    ensures dropped { (order : Order) (blocksize k : ℕ) (c : Change) (a b : NodeContent) → 0 < blocksize → IsOverBlocks blocksize a → c.size ≡ a.size → written_by c ≡ [] → c.gone ≡ Some k
        → IsSameContent blocksize (changed_content blocksize c a) b → DropsName order blocksize k a b }
{}

/// A file into which bytes are put has them, and 0 where it had nothing; one of another size is cut or filled up, whatever is put behind its new end.
pub fn bytes_are_put_into_a_file()
    ensures written { (blocksize at : ℕ) (bytes : List ℕ) (c : Change) (a b : NodeContent) → 0 < blocksize → IsOverBlocks blocksize a → HasZerosBehind blocksize a → at + length bytes ≤ c.size → c.gone ≡ None
        → IsPutInto blocksize c at bytes a b → bytes_in blocksize b ≡ put_at (resized (bytes_in blocksize a) c.size) at bytes }
    ensures sized { (blocksize at : ℕ) (bytes : List ℕ) (c : Change) (a b : NodeContent) → 0 < blocksize → IsOverBlocks blocksize a → HasZerosBehind blocksize a → c.size ≤ at → c.gone ≡ None
        → IsPutInto blocksize c at bytes a b → bytes_in blocksize b ≡ resized (bytes_in blocksize a) c.size }
{}
