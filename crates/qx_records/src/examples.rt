//! What bytes of known values say.
ghost use Rattle.std.specs.Prelude.{◌≡◌, ◌∷◌, [], ◌++◌, Some, None, replicate};
ghost use Rattle.std.specs.List.{range_with_len};
ghost use Rattle.qx_fields.specs.declared.order.Order.TheVariants as orders;
ghost use Rattle.qx_records.specs.declared.kind.Kind.TheVariants as kinds;
ghost use Rattle.qx_records.specs.InodeRecord.{inode_in, kind_of};
ghost use Rattle.qx_records.specs.NameRecord.{Bad, Long, Short, Unused, long_name_in, raw_in};

/// The inode of the bytes 0, 1, 2 and so on, in both orders.
pub fn the_inode_of_counted_bytes()
    ensures little { inode_in orders.Little (range_with_len 0 128) ≡ record {
      root = record { size = 0x0706050403020100; pointers = 0x27262524 ∷ 0x2B2A2928 ∷ 0x2F2E2D2C ∷ 0x33323130 ∷ 0x37363534 ∷ 0x3B3A3938 ∷ 0x3F3E3D3C ∷ 0x43424140 ∷ 0x47464544 ∷ 0x4B4A4948 ∷ 0x4F4E4D4C ∷ 0x53525150 ∷ 0x57565554 ∷ 0x5B5A5958 ∷ 0x5F5E5D5C ∷ 0x63626160 ∷ []; levels = 100 };
      uid = 0x0B0A0908;
      gid = 0x0F0E0D0C;
      ftime = 0x13121110;
      mtime = 0x17161514;
      atime = 0x1B1A1918;
      ctime = 0x1F1E1D1C;
      mode = 0x2120;
      ext_mode = 0x2322;
      status = 101;
    } }
    ensures big { inode_in orders.Big (range_with_len 0 128) ≡ record {
      root = record { size = 0x0001020304050607; pointers = 0x24252627 ∷ 0x28292A2B ∷ 0x2C2D2E2F ∷ 0x30313233 ∷ 0x34353637 ∷ 0x38393A3B ∷ 0x3C3D3E3F ∷ 0x40414243 ∷ 0x44454647 ∷ 0x48494A4B ∷ 0x4C4D4E4F ∷ 0x50515253 ∷ 0x54555657 ∷ 0x58595A5B ∷ 0x5C5D5E5F ∷ 0x60616263 ∷ []; levels = 100 };
      uid = 0x08090A0B;
      gid = 0x0C0D0E0F;
      ftime = 0x10111213;
      mtime = 0x14151617;
      atime = 0x18191A1B;
      ctime = 0x1C1D1E1F;
      mode = 0x2021;
      ext_mode = 0x2223;
      status = 101;
    } }
{}

/// The kinds that modes say.
pub fn the_kinds_of_modes()
    ensures directory { kind_of 0x41ED ≡ Some kinds.Directory }
    ensures file { kind_of 0x81A4 ≡ Some kinds.File }
    ensures link { kind_of 0xA1FF ≡ Some kinds.Link }
    ensures pipe { kind_of 0x1000 ≡ Some kinds.Special }
    ensures character_device { kind_of 0x2FFF ≡ Some kinds.Special }
    ensures block_device { kind_of 0x6180 ≡ Some kinds.Special }
    ensures socket { kind_of 0xC000 ≡ Some kinds.Special }
    ensures nothing { kind_of 0x0FFF ≡ None }
    ensures other { kind_of 0xF1A4 ≡ None }
{}

/// The records that 32 bytes are.
pub fn the_records_of_bytes()
    ensures no_inode { raw_in orders.Little (0 ∷ 0 ∷ 0 ∷ 0 ∷ 28 ∷ replicate 27 97) ≡ Unused }
    ensures no_length { raw_in orders.Little (1 ∷ 0 ∷ 0 ∷ 0 ∷ 0 ∷ replicate 27 97) ≡ Unused }
    ensures short { raw_in orders.Big (0 ∷ 0 ∷ 1 ∷ 2 ∷ 2 ∷ 97 ∷ 98 ∷ 99 ∷ replicate 24 0) ≡ Short 0x102 (97 ∷ 98 ∷ []) }
    ensures longest { raw_in orders.Little (1 ∷ 0 ∷ 0 ∷ 0 ∷ 27 ∷ replicate 27 97) ≡ Short 1 (replicate 27 97) }
    ensures too_long { raw_in orders.Little (1 ∷ 0 ∷ 0 ∷ 0 ∷ 28 ∷ replicate 27 97) ≡ Bad 28 }
    ensures long { raw_in orders.Big (0 ∷ 0 ∷ 0 ∷ 7 ∷ 255 ∷ 0 ∷ 0 ∷ 0 ∷ 0 ∷ 0 ∷ 0 ∷ 5 ∷ 0x40 ∷ 0 ∷ 0 ∷ 0xAC ∷ replicate 16 0) ≡ Long 7 5 0x400000AC }
{}

/// The long names that leaves have.
pub fn the_long_names_of_leaves()
    ensures none { long_name_in orders.Little (replicate 512 0) ≡ None }
    ensures three { long_name_in orders.Big (0 ∷ 3 ∷ 97 ∷ 98 ∷ 99 ∷ replicate 507 0) ≡ Some (97 ∷ 98 ∷ 99 ∷ []) }
    ensures longest { long_name_in orders.Little (254 ∷ 1 ∷ replicate 510 97) ≡ Some (replicate 510 97) }
    ensures too_long { long_name_in orders.Little (255 ∷ 1 ∷ replicate 510 97) ≡ None }
{}
