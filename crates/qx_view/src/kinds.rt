//! What an inode's attributes are, and the tree of a small volume with an entry of each kind, computed.
ghost use Rattle.std.specs.Prelude.{◌≡◌, None};
ghost use Rattle.std.specs.List.{range_with_len};
ghost use Rattle.qx_fields.specs.declared.order.Order.TheVariants as orders;
ghost use Rattle.qx_records.specs.InodeRecord.{inode_in};
ghost use Rattle.qx_view.specs.KindsImage.{kinds_blocks, kinds_roots, kinds_tree};
ghost use Rattle.qx_view.specs.Entries.{attr_of};
ghost use Rattle.qx_view.specs.Reading.{IsTreeOf};
ghost use Rattle.qx_view.specs.Walk.{finding_of};

/// The attributes of the inode whose bytes are 0, 1, 2 and so on, in both orders.
pub fn the_attributes_of_counted_bytes()
    ensures little { attr_of (inode_in orders.Little (range_with_len 0 128))
        ≡ record {
          mode = 0x2120;
          uid = 0x0B0A0908;
          gid = 0x0F0E0D0C;
          ftime = 0x13121110;
          mtime = 0x17161514;
          atime = 0x1B1A1918;
          ctime = 0x1F1E1D1C;
        } }
    ensures big { attr_of (inode_in orders.Big (range_with_len 0 128))
        ≡ record {
          mode = 0x2021;
          uid = 0x08090A0B;
          gid = 0x0C0D0E0F;
          ftime = 0x10111213;
          mtime = 0x14151617;
          atime = 0x18191A1B;
          ctime = 0x1C1D1E1F;
        } }
{}

/// Two directories, a file under three names, one of them long, a link and a special, each with attributes of its own.
pub fn the_tree_of_each_kind()
    ensures whole { finding_of kinds_blocks kinds_roots ≡ None }
    ensures tree { IsTreeOf kinds_blocks kinds_roots kinds_tree }
{}
