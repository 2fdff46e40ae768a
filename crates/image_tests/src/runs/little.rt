//! Small changes in small volumes whose numbers are in little order, each with the line that the checker has to give and why.
//! The lines were derived by hand from the format; `bench/cases.py` has the same cases, and writes the bytes.

/// The volume with a tree, as changes in the one without: blocks 11 and 12 have the rows of the root directory and of `d`, 13 a file, 14 a long name,
/// 15 a link, and 16 to 24 two files of holes with their pointer blocks of levels 1 and 2.
pub const TREE: &str = "
3a01:fb.ff.01 3c24:0b 3c81:02 3c90:e8.03.00.00.e8.03.00.00.e8.03.00.00.e8.03.00.00.ed.41.00.00.0c.00.00.00
3ca8:ff*60 3ce4:00.01 3d00:03 3d10:e8.03.00.00.e8.03.00.00.e8.03.00.00.e8.03.00.00.a4.81.00.00.0d.00.00.00
3d28:ff*60 3d64:00.03 3d90:e8.03.00.00.e8.03.00.00.e8.03.00.00.e8.03.00.00.a4.81.00.00 3da4:ff*64 3de4:00.03
3e00:01 3e10:e8.03.00.00.e8.03.00.00.e8.03.00.00.e8.03.00.00.ff.a1.00.00.0f.00.00.00 3e28:ff*60 3e64:00.03
3e81:04.01 3e90:e8.03.00.00.e8.03.00.00.e8.03.00.00.e8.03.00.00.a4.81.00.00.12.00.00.00.13.00.00.00 3eac:ff*56
3ee4:01.03 3f01:68.10 3f10:e8.03.00.00.e8.03.00.00.e8.03.00.00.e8.03.00.00.a4.81.00.00.18.00.00.00 3f28:ff*60
3f64:02.03 4600:01.00.00.00.01.2e 4620:01.00.00.00.02.2e.2e 4640:02.00.00.00.01.64 4660:03.00.00.00.01.61
4680:05.00.00.00.01.6c 46a0:06.00.00.00.01.70 46c0:06.00.00.00.01.68 46e0:07.00.00.00.01.71
4800:02.00.00.00.01.2e 4820:01.00.00.00.02.2e.2e 4840:04.00.00.00.ff 484c:83.40.55.55 4a00:61.20.6c
4c00:1c.00.c3.a9.c3.a9.c3.a9.c3.a9.c3.a9.c3.a9.c3.a9.c3.a9.c3.a9.c3.a9.c3.a9.c3.a9.c3.a9.c3.a9 4e00:61
5400:10.00.00.00 5404:ff*512 5604:11.00.00.00 5608:ff*504 5c00:14.00.00.00 5c04:ff*712 5ecc:15.00.00.00
5ed0:ff*304 6000:16.00.00.00 6004:ff*60 6040:17.00.00.00 6044:ff*444 f004:64.3f.e4.ff f038:09 f040:48 f0e9:02
f0f0:0e.00.00.00
";

/// On which area is active.
pub const AREAS: &str = "
unchanged | empty | | clean area 2 serial 2 free blocks 85 free inodes 15 | both areas are valid; the second has the greater serial
unchanged with pointer blocks | pointers | | clean area 2 serial 2 free blocks 51 free inodes 79 | 52 user blocks, of which one is held
unchanged with a part of a leaf | part | | clean area 2 serial 2 free blocks 83 free inodes 17 | 84 user blocks, of which one is held
unchanged tree | tree | | clean area 2 serial 2 free blocks 72 free inodes 9 | 86 user blocks, of which 11 to 24 are held; 7 of 16 inodes are live
unchanged with 16 inode leaves | sixteen | | clean area 2 serial 2 free blocks 61 free inodes 63 | 62 user blocks, of which one is held; no level
first area unsealed | empty | 2010:01 | clean area 2 serial 2 free blocks 85 free inodes 15 | the second area is looked for at the last 4,096 bytes
second area unsealed | empty | f010:01 | clean area 1 serial 1 free blocks 85 free inodes 15 | the first area alone is valid
both areas unsealed | empty | 2010:01 f010:01 | no volume | none is valid
areas of two volumes | empty | 2004:ce.bd.2a.9c 2034:11 | disagree | both are valid and differ in num_inodes
equal serials | empty | 2004:4d.dc.19.94.02 | clean area 1 serial 2 free blocks 85 free inodes 15 | the first area counts at equal serials
first area later | empty | 2004:38.2f.90.37.03 | clean area 1 serial 3 free blocks 85 free inodes 15 | the greater serial counts
greatest serial | empty | f004:55.fc.a9.3c.ff.ff.ff.ff.ff.ff.ff.ff | clean area 2 serial 18446744073709551615 free blocks 85 free inodes 15 | a serial has 64 bits
device cut in the second area | empty | =61951 | no volume | 0x3200 + 96 * 512 is 61,952, so neither superblock fits the device
device of a first area alone | empty | =8704 | no volume | the blocks don't fit the device
device of nothing | empty | =0 | no volume | there is no place for an area
device a byte longer | empty | =65537 | clean area 2 serial 2 free blocks 85 free inodes 15 | the length counts in whole 4,096 bytes
device 4,095 bytes longer | empty | =69631 | clean area 2 serial 2 free blocks 85 free inodes 15 | the length counts in whole 4,096 bytes
device 4,095 bytes longer without a first area | empty | =69631 2010:01 | clean area 2 serial 2 free blocks 85 free inodes 15 | the second area is looked for at 65,536 - 4,096
a second area that says another place | empty | 2000:00 f004:bf.dd.47.1c f03c:5f | no volume | the first isn't valid, and the second says that it stands at 60,928
blocks of 256 bytes | empty | 2004:bc.d6.ca.00 2031:01 203c:c0 f004:19.53.61.ae f031:01 f03c:c0 | no volume | the second place stays, but 256 is no block size
blocks of 8,192 bytes | empty | 2004:76.76.e9.75 2031:20 203c:06 f004:d3.f3.42.db f031:20 f03c:06 | no volume | the second place stays, but 8,192 is no block size
no blocks in the first superblock | empty | 2004:ea.6c.56.39 203c:00 | clean area 2 serial 2 free blocks 85 free inodes 15 | the first isn't valid; the second is looked for at the end
one block too many for the device | empty | 2004:5f.f3.91.45 203c:68 | clean area 2 serial 2 free blocks 85 free inodes 15 | 0x3200 + 104 * 512 is 66,048, so the first isn't valid; the second is looked for at the end
as many blocks as fit the device | empty | 2004:bc.ad.d5.27 203c:67 | foreign 1 at 0 | 0x3200 + 103 * 512 is 65,536, so the first is valid; the second is looked for at 65,024 and isn't there
superblocks at the device's end | empty | =61952 3c64:06 | damaged 1 inode 1 block 4294967295 | the second superblock ends with the device, and its half is the one that is damaged
";

/// On sizes and levels of nodes.
pub const SIZES: &str = "
levels above 5 | empty | 3c64:06 | damaged 1 inode 1 block 4294967295 | 5 levels are the most
size above the levels' reach | empty | 3c00:01.20 | damaged 1 inode 1 block 4294967295 | no levels reach 16 leaves
size at the levels' reach | empty | 3c01:20 | foreign 4 at 1 | 16 leaves are reached; 15 of them are holes of a directory
a hole of 8192 bytes | tree | 3d81:20 | clean area 2 serial 2 free blocks 72 free inodes 9 | 0 levels reach it
a hole of 1048576 bytes | tree | 3d82:10 3de4:01 | clean area 2 serial 2 free blocks 72 free inodes 9 | 1 levels reach it
a hole of 134217728 bytes | tree | 3d83:08 3de4:02 | clean area 2 serial 2 free blocks 72 free inodes 9 | 2 levels reach it
a hole of 17179869184 bytes | tree | 3d84:04 3de4:03 | clean area 2 serial 2 free blocks 72 free inodes 9 | 3 levels reach it
a hole of 2199023255552 bytes | tree | 3d85:02 3de4:04 | clean area 2 serial 2 free blocks 72 free inodes 9 | 4 levels reach it
a hole of 281474976710656 bytes | tree | 3d86:01 3de4:05 | clean area 2 serial 2 free blocks 72 free inodes 9 | 5 levels reach it
a hole of 8193 bytes | tree | 3d80:01.20 | damaged 1 inode 4 block 4294967295 | 0 levels don't reach it
a hole of 1048577 bytes | tree | 3d80:01.00.10 3de4:01 | damaged 1 inode 4 block 4294967295 | 1 levels don't reach it
a hole of 134217729 bytes | tree | 3d80:01.00.00.08 3de4:02 | damaged 1 inode 4 block 4294967295 | 2 levels don't reach it
a hole of 17179869185 bytes | tree | 3d80:01.00.00.00.04 3de4:03 | damaged 1 inode 4 block 4294967295 | 3 levels don't reach it
a hole of 2199023255553 bytes | tree | 3d80:01.00.00.00.00.02 3de4:04 | damaged 1 inode 4 block 4294967295 | 4 levels don't reach it
a hole of 281474976710657 bytes | tree | 3d80:01 3d86:01 3de4:05 | damaged 1 inode 4 block 4294967295 | 5 levels don't reach it
a hole of 8192 bytes, a level higher | tree | 3d81:20 3de4:01 | foreign 4 at 4 | 0 levels reach it
a hole of 1048576 bytes, a level higher | tree | 3d82:10 3de4:02 | foreign 4 at 4 | 1 levels reach it
a hole of 134217728 bytes, a level higher | tree | 3d83:08 3de4:03 | foreign 4 at 4 | 2 levels reach it
a hole of 17179869184 bytes, a level higher | tree | 3d84:04 3de4:04 | foreign 4 at 4 | 3 levels reach it
a hole of 2199023255552 bytes, a level higher | tree | 3d85:02 3de4:05 | foreign 4 at 4 | 4 levels reach it
size above 2^48 | empty | 3c00:01.00.00.00.00.00.01 3c64:05 | damaged 1 inode 1 block 4294967295 | 2^48 bytes are the most, and what 5 levels of 512 bytes reach
Inode tree larger than the volume | empty | f004:f9.2a.ba.67 f048:01.c0 f090:01 | damaged 1 inode 0 block 4294967295 | one level reaches it, and a root node's size is at most that of all blocks
Longfile as large as the volume | empty | f004:ab.b7.3d.7e f0e9:c0 f130:01 | clean area 2 serial 2 free blocks 85 free inodes 15 | all its leaves are holes, and a root node's size may be that of all blocks
Longfile larger than the volume | empty | f004:e7.51.2a.3a f0e8:01.c0 f130:01 | damaged 1 inode 0 block 4294967295 | one byte more
Longfile levels above 5 | empty | f004:dd.1d.74.a7 f130:06 | damaged 1 inode 0 block 4294967295 | also where the size is 0
Bitmap levels above 5 | empty | f004:eb.c6.9e.98 f0e0:ff | damaged 1 inode 0 block 4294967295 | the bitmap is walked too
a file's levels above 5 | tree | 3de4:06 | damaged 1 inode 4 block 4294967295 | also where the size is 0
";

/// On pointers, and inodes that are named.
pub const POINTERS: &str = "
pointer at num_blocks | empty | 3c24:60 | damaged 2 inode 1 block 96 | the last block is 95
pointer at the last block | empty | 3c24:5f | foreign 3 at 10 | block 95 is read as a directory without rows; bit 10 is set, and no node met block 10
Inode root pointer past the blocks | empty | f004:2b.4b.08.60 f050:60 | damaged 2 inode 0 block 96 | inode 0 for root nodes
Bitmap root pointer past the blocks | empty | f004:c8.b7.a4.5e f0a0:fe.ff.ff.ff | damaged 2 inode 0 block 4294967294 | 0xFFFFFFFE is no absent pointer
word of a pointer block past the blocks | tree | 5400:60 | damaged 2 inode 6 block 96 | p's word 0 leads to leaf 0
word of a second pointer block past the blocks | tree | 5604:60 | damaged 2 inode 6 block 96 | word 1 of the second one leads to leaf 129
word past the size past the blocks | tree | 5608:60.00.00.00 | foreign 4 at 6 | leaf 130 isn't below the size
word of level 2 past the blocks | tree | 6040:60 | damaged 2 inode 7 block 96 | it leads to leaves 2048 to 2175
pointer past the size past the blocks | empty | 3c28:60.00.00.00 | foreign 4 at 1 | no path to a leaf below the size has it, so it is no bad pointer
directory read as pointer blocks | empty | 3c01:00.00.00.00.00.01 3c64:05 | damaged 2 inode 1 block 512 | block 10's word 0 is 1; block 1 is the first half's inode leaf, whose word 0 is the size 512, or in big order 0 and then the first word of the bitmap
one block for two leaves | empty | 3c01:04 3c28:0a.00.00.00 | damaged 3 inode 1 block 10 | leaf 1 meets it again
a directory in the Inode tree | empty | 3c24:06 | damaged 3 inode 1 block 6 | the Inode root met it
Longfile and Bitmap share a leaf | empty | f004:34.f6.a1.2a f0e9:02 f0f0:05.00.00.00 | damaged 3 inode 0 block 5 | the Longfile meets it first, the bitmap again
a pointer block that points at itself | tree | 5400:12 | damaged 3 inode 6 block 18 | p met it as its pointer block
a file's leaf as a pointer block | tree | 3ea4:0d | damaged 3 inode 6 block 13 | a met it
two files share a leaf | tree | 5400:0d | damaged 3 inode 6 block 13 | a met it
a free block as a pointer block | tree | 6004:1e.00.00.00 | damaged 3 inode 7 block 0 | its words are 0: block 0, which the active tree hasn't met, is met by the first and again by the second
no room for inode 1 | empty | f004:83.19.91.23 f049:00 | damaged 4 inode 1 block 4294967295 | 1 * 128 is above 0
not quite room for inode 1 | empty | f004:89.e1.94.14 f048:7f.00 | damaged 4 inode 1 block 4294967295 | 1 * 128 is above 127
room for inode 1 alone | empty | f004:30.7f.c8.21 f048:80.00 | foreign 2 at 0 | 1 * 128 isn't above 128
row above the Inode tree | empty | 4440:11.00.00.00.01.78 | damaged 4 inode 1 block 10 | 17 * 128 is above 2,048
row past the Inode tree's part | empty | 4440:10.00.00.00.01.78 f004:d8.dc.a8.2a f048:ff.07 | damaged 4 inode 1 block 10 | 16 * 128 is above 2,047
greatest inode number | empty | 4440:ff.ff.ff.ff.01.78 | damaged 4 inode 1 block 10 | its place has more than 32 bits
row to an inode of zeros | empty | 4440:02.00.00.00.01.78 | damaged 5 inode 1 block 10 | mode 0 is no kind
row to an inode in a hole | empty | 4440:10.00.00.00.01.78 f004:50.69.7a.65 f05c:ff.ff.ff.ff | damaged 5 inode 1 block 10 | inodes 13 to 16 read as zeros
";

/// On kinds, and sizes of links.
pub const KINDS: &str = "
inode 1 is a file | empty | 3c20:a4.81 | damaged 5 inode 1 block 4294967295 | inode 1 is a directory
a mode of 0x1a4 | tree | 3d21:01 | damaged 5 inode 1 block 11 | no kind
a mode of 0x11a4 | tree | 3a01:db 3d21:11 | foreign 6 at 3 | a special's node isn't walked, so bit 13 has to be 0
a mode of 0x21a4 | tree | 3a01:db 3d21:21 | foreign 6 at 3 | a special's node isn't walked, so bit 13 has to be 0
a mode of 0x31a4 | tree | 3d21:31 | damaged 5 inode 1 block 11 | no kind
a mode of 0x41a4 | tree | 3d21:41 | foreign 4 at 3 | a directory of 3 bytes, no multiple of 512
a mode of 0x51a4 | tree | 3d21:51 | damaged 5 inode 1 block 11 | no kind
a mode of 0x61a4 | tree | 3a01:db 3d21:61 | foreign 6 at 3 | a special's node isn't walked, so bit 13 has to be 0
a mode of 0x71a4 | tree | 3d21:71 | damaged 5 inode 1 block 11 | no kind
a mode of 0x81a4 | tree | | clean area 2 serial 2 free blocks 72 free inodes 9 | a file
a mode of 0x91a4 | tree | 3d21:91 | damaged 5 inode 1 block 11 | no kind
a mode of 0xa1a4 | tree | 3d21:a1 | clean area 2 serial 2 free blocks 72 free inodes 9 | a link of 3 bytes
a mode of 0xb1a4 | tree | 3d21:b1 | damaged 5 inode 1 block 11 | no kind
a mode of 0xc1a4 | tree | 3a01:db 3d21:c1 | foreign 6 at 3 | a special's node isn't walked, so bit 13 has to be 0
a mode of 0xd1a4 | tree | 3d21:d1 | damaged 5 inode 1 block 11 | no kind
a mode of 0xe1a4 | tree | 3d21:e1 | damaged 5 inode 1 block 11 | no kind
a mode of 0xf1a4 | tree | 3d21:f1 | damaged 5 inode 1 block 11 | no kind
inode 1 has no kind | empty | 3c20:a4.31 | damaged 5 inode 1 block 4294967295 | 3 is no kind
link of no bytes | tree | 3e00:00 | damaged 6 inode 5 block 4294967295 | 1 byte at least
link of 1,024 bytes | tree | 3e00:00.04 | damaged 6 inode 5 block 4294967295 | 1,023 bytes at most
link of 1,023 bytes | tree | 3e00:ff.03 | clean area 2 serial 2 free blocks 72 free inodes 9 | its leaf 1 is a hole, which no reason forbids
long link with a bad pointer | tree | 3e00:00.04 3e28:60.00.00.00 | damaged 2 inode 5 block 96 | the node is walked before the size is tested
";

/// On directory records and long names.
pub const RECORDS: &str = "
record of length 28 | empty | 4404:1c | damaged 7 inode 1 block 10 | 27 bytes are the most of a short name
record of length 254 | empty | 4460:01.00.00.00.fe | damaged 7 inode 1 block 10 | also where it isn't the first
record of length 27 | tree | 4700:03.00.00.00.1b 4705:6e*27 | clean area 2 serial 2 free blocks 72 free inodes 9 | a further row of the file a
unused record of length 28 | empty | 4464:1c | clean area 2 serial 2 free blocks 85 free inodes 15 | inode 0 is unused, whatever the length
unused record of inode 99 | empty | 4460:63 | clean area 2 serial 2 free blocks 85 free inodes 15 | length 0 is unused, whatever the inode
long name past the size | tree | 4848:01 | damaged 8 inode 2 block 12 | 1 * 512 isn't below 512
long name in a hole | tree | 4848:01 f004:6a.fb.ee.44 f0e9:04 | damaged 8 inode 2 block 12 | leaf 1 is below the size, and absent
long name of no bytes | tree | 4c00:00 | damaged 8 inode 2 block 12 | 1 byte at least
long name of 511 bytes | tree | 4c00:ff.01 | damaged 8 inode 2 block 12 | 510 bytes at most
long name of 510 bytes | tree | 484c:f3.fc.ff.ff 4c00:fe.01 4c02:6e*510 | clean area 2 serial 2 free blocks 72 free inodes 9 | the whole leaf
long name in a part of a leaf | tree | f004:d2.9a.f5.d2 f0e8:01.00 | foreign 7 at 0 | leaf 0 begins below the size, so the name is there; the size is no multiple of 512
long name with another sum | tree | 484c:00.00.00.00 | damaged 9 inode 2 block 12 | neither checksum is 0
long name with the signed sum | tree | 484c:a3.5e | clean area 2 serial 2 free blocks 72 free inodes 9 | the signed checksum is right as well
sum before bytes | tree | 4c02:2f | damaged 9 inode 2 block 12 | the checksum is tested before the name's bytes
bytes 128 and 127 with the signed sum | tree | 484c:9f.ff.ff.bf 4c00:03.00.80.7f.80 | clean area 2 serial 2 free blocks 72 free inodes 9 | 128 is negative, 127 isn't
a name twice | tree | 4685:61 | damaged 10 inode 1 block 11 | record 3 has the name a
a short and a long name alike | tree | 484c:78.00.00.00 4860:03.00.00.00.01.78 4c00:01.00.78 | damaged 10 inode 2 block 12 | records of two forms, one name
`.` twice | tree | 4685:2e | damaged 10 inode 1 block 11 | tested before what `.` names
a name twice before its inode | tree | 4680:11.00.00.00.01.61 | damaged 10 inode 1 block 11 | tested before the inode
a slash in a name | tree | 4665:2f | damaged 11 inode 1 block 11 | no name has it
a byte 0 in a name | tree | 4664:02 | damaged 11 inode 1 block 11 | within the length
a slash in a long name | tree | 484c:6b.00.00.00 4c00:02.00.78.2f | damaged 11 inode 2 block 12 | with its right checksum
byte before inode | tree | 4660:11.00.00.00.01.2f | damaged 11 inode 1 block 11 | tested before the inode
`.` names another | empty | 4400:02 | damaged 12 inode 1 block 10 | `.` names its directory
root's `..` names another | empty | 4420:11 | damaged 12 inode 1 block 10 | the root's `..` names the root; no test of the inode comes before
`..` names its directory | tree | 4820:02 | damaged 12 inode 2 block 12 | d's parent is inode 1
a long `.` | tree | 4800:00.00.00.00.00.00 484c:2e.00.00.00 4c00:01.00.2e | damaged 12 inode 2 block 12 | `.` is known by its name; it names inode 4
";

/// On directories named twice, tails, counts, and the order of tests.
pub const ENDS: &str = "
a directory twice in one directory | tree | 4660:02 | damaged 13 inode 1 block 11 | d and a both name inode 2
a directory with the root below it | tree | 4840:01 | damaged 13 inode 2 block 12 | the root is listed first
a directory below itself | tree | 4840:02 | damaged 13 inode 2 block 12 | inode 2 was listed by the root
two rows to a new directory | empty | 3c81:02 3c90:e8.03.00.00.e8.03.00.00.e8.03.00.00.e8.03.00.00.ed.41.00.00.0b.00.00.00 3ca8:ff*60 3ce4:00.01 4440:02.00.00.00.01.64 4460:02.00.00.00.01.65 | damaged 13 inode 1 block 10 | d listed it, e is refused, before inode 2 is walked
a byte past a file's size | tree | 4a03:01 | damaged 14 inode 3 block 4294967295 | a has 3 bytes
the last byte of a file's last leaf | tree | 4bff:01 | damaged 14 inode 3 block 4294967295 | to the end of the leaf
a byte past a link's size | tree | 4e01:01 | damaged 14 inode 5 block 4294967295 | the target has 1 byte
bytes past two sizes | tree | 4a03:01 4e01:01 | damaged 14 inode 3 block 4294967295 | the least inode
a byte past the Inode tree's size | part | 4700:01 | damaged 14 inode 0 block 4294967295 | 18 inodes end at byte 256 of leaf 4
a byte past a long name | tree | 4dff:01 | clean area 2 serial 2 free blocks 72 free inodes 9 | no test reads it
free blocks too many | empty | f004:83.d3.c8.2a f040:56 | damaged 15 inode 0 block 4294967295 | 86 user blocks, one held
free blocks too few | empty | f004:6c.db.b6.76 f040:54 | damaged 15 inode 0 block 4294967295 | 86 user blocks, one held
free inodes too few | empty | f004:05.5d.c2.8e f038:0e | damaged 15 inode 0 block 4294967295 | 16 inodes, one reached
counts of the other area | empty | 2004:80.e5.19.2e 2040:00 | clean area 2 serial 2 free blocks 85 free inodes 15 | the active area's counts alone
tail before counts | tree | 4a03:01 f004:ee.d7.57.2e f040:00 | damaged 14 inode 3 block 4294967295 | 14 comes before 15
Inode root before Longfile | empty | f004:36.07.95.1d f050:60 f130:06 | damaged 2 inode 0 block 96 | the Inode root is walked first
Longfile before Bitmap | empty | f004:cf.64.65.15 f0e0:06 f0e9:02 f0f0:60.00.00.00 | damaged 2 inode 0 block 96 | the Longfile is walked second
list and not depth | tree | 3de4:06 3ee4:07 | damaged 1 inode 6 block 4294967295 | the list is 1, 2, 3, 5, 6, 4: inode 4 is put there by d, after the root's rows
all rows before the next inode | tree | 3ce4:06 4680:11 | damaged 4 inode 1 block 11 | the root's records are taken before inode 2
the tree before the layout | tree | 3a0b:80 484c:00.00.00.00 | damaged 9 inode 2 block 12 | the bitmap comes later
the layout before the counts | empty | 3a0b:80 f004:25.60.b2.80 f040:00 | foreign 3 at 95 | counts come last
reason 3 before 4 | empty | 3c01:00 | foreign 3 at 10 | no node meets block 10
reason 4 before 5 | tree | 3de4:01 4800:01.00.00.00.02.2e.2e 4820:02.00.00.00.01.2e.00 | foreign 4 at 4 | in order
";

/// On numbers, halves and bitmap.
pub const LAYOUT: &str = "
device cut behind the second superblock | empty | =61952 | foreign 1 at 0 | both superblocks fit; a device of 61,440 whole bytes has 88 blocks
device with room for more blocks | empty | =69632 | foreign 1 at 0 | a device of 69,632 bytes has 104 blocks
another num_blocks | empty | 2004:1a.58.ec.b2 203c:5f | foreign 1 at 0 | the second area is looked for at 60,928 and isn't there, so the first is active
15 inodes | empty | 2004:bd.d4.d5.03 2034:0f f004:18.51.7e.ad f034:0f | foreign 1 at 0 | 16 inodes at least
too many inodes for two halves | empty | 2004:00.83.4c.f7 2034:95 f004:a5.06.e7.59 f034:95 | foreign 1 at 0 | each half would have 1 + 38 + 1 blocks, and with 17 more there would be 97
inodes for two halves | empty | 2004:ab.ea.24.1f 2034:94 f004:0e.6f.8f.b1 f034:94 | foreign 2 at 0 | each half would have 1 + 37 + 1 blocks, which fit; the Inode root node isn't theirs
version 2 | empty | f004:c3.bb.16.67 f01c:02 | foreign 1 at 0 | version1 is 1
fourth root with a size | empty | f004:0c.73.91.92 f138:01 | foreign 1 at 0 | it is empty
fourth root with a pointer | empty | f004:13.c6.e2.8f f17c:14.00.00.00 | foreign 1 at 0 | all its pointers are absent
fourth root with levels | empty | f004:9b.05.d0.62 f180:03 | clean area 2 serial 2 free blocks 85 free inodes 15 | no test reads its levels
numbers that no test reads | empty | f004:3d.b2.91.a4 f018:01 f01e:01.00.01 f044:01 f091:01 f1ff:01 | clean area 2 serial 2 free blocks 85 free inodes 15 | flags, version2, volume id, allocgroup, spare bytes, a root node's mode
a directory in the other half | empty | 3c24:02 | foreign 2 at 0 | block 2 is below 10
the Longfile in the other half | empty | f004:dc.10.ff.65 f0e9:02 f0f0:04.00.00.00 | foreign 2 at 0 | block 4 is below 10
the roots of the other half | empty | f004:4d.dc.19.94 f050:01.00.00.00.02.00.00.00.03.00.00.00.04 f0a0:00 | foreign 2 at 0 | area 2 has the second half
an Inode root pointer past the size | empty | f004:29.7b.8a.9d f060:14.00.00.00 | foreign 2 at 0 | all 16 pointers count
a smaller Inode tree | empty | f004:d2.24.ad.1d f048:80.07 | foreign 2 at 0 | its size is 16 * 128
a larger bitmap | empty | f004:3e.60.e4.dc f098:0d | foreign 2 at 0 | its size is 12
more inodes than the Inode tree has | empty | 2004:10.54.a0.d8 2034:14 f004:b5.d1.0b.76 f034:14 | foreign 2 at 0 | the layout for 20 inodes has a tree of 2,560 bytes
another leaf in the active half's pointer block | pointers | 8600:01 | foreign 2 at 0 | block 1 has the same inodes, and stands in the other half
a word past the size in the active half's pointer block | pointers | 8650:32.00.00.00 | foreign 2 at 0 | unused words are absent
a word in the other half's pointer block | pointers | 5a0c:05 | foreign 2 at 0 | word 3 is block 4
a word past the size in the other half's pointer block | pointers | 5bfc:00.00.00.00 | foreign 2 at 0 | unused words are absent
a leaf of the other half | pointers | 5800:01 | clean area 2 serial 2 free blocks 51 free inodes 79 | no test reads the other half's leaves
bits of three blocks missing | empty | 3a01:e0 | foreign 3 at 8 | bits 8, 9 and 10 are missing
the bit of the other half missing | empty | 3a00:fe | foreign 3 at 0 | both halves have bits 1
the root directory's bit missing | empty | 3a01:03 | foreign 3 at 10 | the root directory meets block 10
a pointer block's bit missing | tree | 3a02:fb | foreign 3 at 18 | p meets block 18 as its pointer block
a long name's bit missing | tree | 3a01:bb | foreign 3 at 14 | the Longfile meets block 14
a free block's bit set | empty | 3a0b:80 | foreign 3 at 95 | no node meets the last block
the first bit past the blocks | empty | 3a0c:fe | foreign 3 at 96 | bits past the last block are 1
the last bit of the leaf | empty | 3bff:7f | foreign 3 at 4095 | to the end of the last leaf
";

/// On nodes, first records, inodes and long names.
pub const NODES: &str = "
a deep node of nothing | empty | 3c01:00.00.00.00.00.01 3c24:ff.ff.ff.ff 3c64:05 | foreign 3 at 10 | a hole is passed by its pointer; no node meets block 10
a pointer past the size | empty | 3c28:14.00.00.00 | foreign 4 at 1 | it isn't absent
levels above the least | tree | 3de4:01 | foreign 4 at 4 | size 0 has no level
a Longfile's levels above the least | empty | f004:1e.bd.33.4d f130:01 | foreign 4 at 0 | 0 is the Longfile
a Longfile's pointer past the size | empty | f004:7a.4b.13.ea f0f0:14.00.00.00 | foreign 4 at 0 | 0 is the Longfile
a word past the size | tree | 5608:1e.00.00.00 | foreign 4 at 6 | p has leaves 0 to 129
a word of level 2 past the size | tree | 6044:1e.00.00.00 | foreign 4 at 7 | it would lead to leaf 2176 and on
a word in a hole below the size | tree | 5444:1e.00.00.00 | foreign 3 at 30 | p meets block 30 as leaf 17
a leaf more | tree | 3a03:41 5444:1e.00.00.00 f004:f2.92.00.c2 f040:47 | clean area 2 serial 2 free blocks 71 free inodes 9 | leaf 17 is a hole no more
a pointer block without leaves | tree | 3a02:fd 5604:ff.ff.ff.ff | foreign 4 at 6 | p's second pointer block has no present leaf
a pointer block of level 2 without leaves | tree | 3a02:0f 6000:ff.ff.ff.ff 6040:ff.ff.ff.ff | foreign 4 at 7 | q's pointer block has no pointer
a directory of no bytes | empty | 3a01:03 3c01:00 3c24:ff.ff.ff.ff | foreign 4 at 1 | a directory's size isn't 0
a directory of a part of a leaf | empty | 3c00:e0.01 | foreign 4 at 1 | no multiple of 512
a directory with a hole | empty | 3c01:04 | foreign 4 at 1 | leaf 1 is a hole
two foreign nodes | tree | 3de4:01 5608:1e.00.00.00 | foreign 4 at 4 | the least inode
dots swapped | empty | 4404:02.2e.2e 4424:01.2e.00 | foreign 5 at 1 | `.` is the first record
dots swapped below | tree | 4800:01.00.00.00.02.2e.2e 4820:02.00.00.00.01.2e.00 | foreign 5 at 2 | in d
no `..` | empty | 4420:00.00.00.00.00.00.00 | foreign 5 at 1 | the second record is unused
dots one record later | empty | 4400:00.00.00.00.00.00 4440:01.00.00.00.01.2e | foreign 5 at 1 | the first record is unused
a long `.` first | tree | 4804:ff.00 480c:2e 4840:00.00.00.00.00 484c:00.00.00.00 4c00:01.00.2e | foreign 5 at 2 | it names d, and is no short record
a directory's status 3 | empty | 3c65:03 | foreign 6 at 1 | 1 for directories
a file's status 2 | tree | 3d65:02 | foreign 6 at 3 | 3 otherwise
an ext_mode | empty | 3c22:01 | foreign 6 at 1 | it is 0
the first unnamed byte | empty | 3c66:01 | foreign 6 at 1 | it is 0
the last unnamed byte | empty | 3c7f:01 | foreign 6 at 1 | it is 0
a special's block | tree | 3d21:11 | foreign 3 at 13 | a special's node isn't walked
a byte in an inode not reached | empty | 43ff:01 | foreign 6 at 16 | 128 bytes 0
an inode without a row | tree | 3a01:db 4660:00.00.00.00.00.00 | foreign 6 at 3 | a is reached no more
the last inode's last byte | part | 46ff:01 | foreign 6 at 18 | inode 18 ends at byte 256 of leaf 4
a Longfile of a part of a leaf | tree | f004:53.32.0f.72 f0e8:ff.01 | foreign 7 at 0 | no multiple of 512
a long name without a record | tree | 3d90:00*86 4840:00.00.00.00.00 484c:00.00.00.00 | foreign 7 at 0 | leaf 0 is named by none
a long name with two records | tree | 4700:04.00.00.00.ff 470c:83.40.55.55 | foreign 7 at 0 | inode 4 has two rows, which is fine, over one leaf, which isn't
a leaf of the Longfile too many | tree | 3a03:41 f004:7f.be.c3.1e f0e9:04 f0f4:1e.00.00.00 | foreign 7 at 1 | leaf 1 is named by none; what it holds isn't read
a hole in the Longfile | tree | f004:6a.fb.ee.44 f0e9:04 | clean area 2 serial 2 free blocks 72 free inodes 9 | an absent leaf needs no record
a long record of a short name | tree | 484c:78.00.00.00 4c00:01.00.78 | clean area 2 serial 2 free blocks 72 free inodes 9 | no reason forbids it
bytes of a record that no test reads | tree | 465f:01 4845:01 485f:01 | clean area 2 serial 2 free blocks 72 free inodes 9 | behind a short name, and around a long record's fields
";
