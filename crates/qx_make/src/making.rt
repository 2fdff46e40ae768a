//! The maker's way: the old areas are zeroed, the length is set, and the new volume is written from its blocks to its superblocks.
ghost use Rattle.std.specs.Prelude.{◌≡◌, ◌<◌, ◌≤◌, ◌^◌, ◌-◌, ◌∷◌, [], ◌++◌, ℕ, List, length, IfOk, IfSome, OnOk, IsTrue, Err, Ok};
ghost use Rattle.qx_outside.specs.Calls.{LeavesConsole};
ghost use Rattle.qx_outside.specs.Causes.{HasCause, Rose};
ghost use Rattle.qx_outside.specs.Trail.{bytes_of};
ghost use Rattle.qx_geom.specs.Layout.{IsGeometry};
ghost use Rattle.qx_geom.specs.declared.geometry.GeomFault.{GeomFault};
ghost use Rattle.qx_geom.specs.declared.geometry.Geometry.{Geometry};
ghost use Rattle.qx_make.specs.Stages.{JustWrites, AsksOneLength, MakesAll, Performs, PerformsAll, made_bytes, make_stages, new_stages, old_places, old_stages, places_by, places_of_two, rest_stage, supers_stage, with_volume, zero_stages, zeroed};
ghost use Rattle.qx_make.specs.declared.options.MakeFault.TheVariants as faults;
ghost use Rattle.qx_make.specs.Make.{HasMade, KeepsQuiet, MakesAtEachMoment, geometry_for, made_of};
ghost use Rattle.qx_make.specs.Superblocks.{made_super};
ghost use Rattle.qx_make.specs.NewVolume.{empty_root};

use crate::areas::{ZEROS, put_into_areas, zero_area};
use crate::blocks::NewVolume;
use crate::halves::write_blocks;
use crate::{Made, MakeFault, MakeOptions};
use qx_fields::Order;
use qx_geom::{ABSENT, FIRST_PLACE, Geometry, Root, SystemTree, Which};
use qx_outside::{Dev, Failed};
use qx_super::{Choice, Super, areas, write_super};

/// A root node of nothing.
fn empty_node() -> Root
    ensures { result ≡ empty_root }
{
    Root {
        size: 0,
        pointers: [ABSENT; 16],
        levels: 0,
    }
}

/// The superblock of an area of the new volume.
#[tactic(auto, unfolding(crate::specs::Superblocks::made_super))]
fn superblock(volume: &NewVolume, which: Which) -> Super
    requires { IsGeometry volume.now.geometry }
    ensures { result ≡ made_super volume.now.geometry volume.now.order volume.now.moment which }
{
    let geometry = &volume.geometry;
    Super {
        order: volume.order,
        serial: u64::from(which.number()),
        ctime: volume.moment,
        atime: volume.moment,
        version1: 1,
        blocksize: geometry.blocksize,
        num_inodes: geometry.num_inodes,
        free_inodes: geometry.num_inodes - 1,
        num_blocks: geometry.num_blocks,
        free_blocks: geometry.user() - 1,
        inode: geometry.tree_root(which, SystemTree::Inodes),
        bitmap: geometry.tree_root(which, SystemTree::Bitmap),
        longfile: empty_node(),
        fourth: empty_node(),
    }
}

/// The places of the old areas, in the order in which they are zeroed: the active one comes last. Where none is active the first area's alone.
fn places_to_zero(choice: Choice<'_>) -> (u64, Option<u64>)
    ensures { places_of_two result.0 result.1 ≡ places_by choice.entry }
{
    match choice {
        Choice::Active(Which::First, view) => (view.second_place(), Some(FIRST_PLACE)),
        Choice::Active(Which::Second, view) => (FIRST_PLACE, Some(view.second_place())),
        Choice::None | Choice::Disagree => (FIRST_PLACE, None),
    }
}

/// Zeroes two areas of a device of `len` bytes, one after the other.
fn zero_both<D: Dev>(host: &mut D, len: u64, one: u64, last: u64) -> Result<(), Failed>
    requires len { IfSome (D.outside host.old).extent (λ n. n ≡ len) }
    ensures stages { (bytes : List ℕ) → length bytes ≡ len
        → PerformsAll bytes (zeroed bytes (one ∷ last ∷ [])) (zero_stages bytes (one ∷ last ∷ []) ++ rest_stage (zeroed bytes (one ∷ last ∷ [])) ∷ []) result (D.outside host.old) (D.outside host.new) }
    ensures others { JustWrites (D.outside host.old) (D.outside host.new) result }
{
    zero_area(host, len, one)?;
    zero_area(host, len, last)
}

/// Zeroes one or two areas of a device of `len` bytes.
fn zero_places<D: Dev>(host: &mut D, len: u64, one: u64, last: Option<u64>) -> Result<(), Failed>
    requires len { IfSome (D.outside host.old).extent (λ n. n ≡ len) }
    ensures stages { (bytes : List ℕ) → length bytes ≡ len
        → PerformsAll bytes (zeroed bytes (places_of_two one last)) (zero_stages bytes (places_of_two one last) ++ rest_stage (zeroed bytes (places_of_two one last)) ∷ []) result (D.outside host.old) (D.outside host.new) }
    ensures others { JustWrites (D.outside host.old) (D.outside host.new) result }
{
    match last {
        None => zero_area(host, len, one),
        Some(last) => zero_both(host, len, one, last),
    }
}

/// Zeroes the areas of the volume that the device has, whichever it is; where none is active, the first area's place.
fn clear_old<D: Dev>(host: &mut D) -> Result<(), Failed>
    ensures stages { (old : List ℕ)
        → PerformsAll old (zeroed old (old_places old)) (old_stages old) result (D.outside host.old) (D.outside host.new) }
    ensures others { LeavesConsole (D.outside host.old) (D.outside host.new) }
    ensures cause { HasCause (D.outside host.old).dev_faults (D.outside host.new).dev_faults result }
{
    let len = host.len()?;
    let mut first = [0; 512];
    let mut second = [0; 512];
    let areas = areas(host, len, &mut first, &mut second)?;
    let (one, last) = places_to_zero(areas.choice());
    zero_places(host, len, one, last)
}

/// Puts both superblocks of the new volume, and has them kept.
fn write_supers<D: Dev>(host: &mut D, volume: &NewVolume) -> Result<(), Failed>
    requires geometry { IsGeometry volume.now.geometry }
    requires len { IfSome (D.outside host.old).extent (λ n. volume.now.geometry.len4 ≤ n) }
    ensures stage { (bytes : List ℕ) → volume.now.geometry.len4 ≤ length bytes
        → Performs (supers_stage volume.now.geometry volume.now.order volume.now.moment bytes) result (D.outside host.old) (D.outside host.new) }
    ensures others { JustWrites (D.outside host.old) (D.outside host.new) result }
{
    let mut first = [0; 512];
    let mut second = [0; 512];
    write_super(&superblock(volume, Which::First), &mut first);
    write_super(&superblock(volume, Which::Second), &mut second);
    put_into_areas(host, &volume.geometry, &first, &second)
}

/// Writes a new volume over a device of its length: its areas are zeroed, and its superblocks come last.
fn write_volume<D: Dev>(host: &mut D, volume: &NewVolume) -> Result<(), Failed>
    requires geometry { IsGeometry volume.now.geometry }
    requires len { IfSome (D.outside host.old).extent (λ n. volume.now.geometry.len4 ≤ n) }
    ensures stages { (bytes : List ℕ) → volume.now.geometry.len4 ≤ length bytes
        → PerformsAll bytes (with_volume volume.now.geometry volume.now.order volume.now.moment bytes) (new_stages volume.now.geometry volume.now.order volume.now.moment bytes) result (D.outside host.old) (D.outside host.new) }
    ensures others { JustWrites (D.outside host.old) (D.outside host.new) result }
{
    put_into_areas(host, &volume.geometry, &ZEROS, &ZEROS)?;
    write_blocks(host, volume)?;
    write_supers(host, volume)
}

/// Replaces whatever the device holds by a new volume of `size` bytes.
fn replace<D: Dev>(
    host: &mut D,
    size: u64,
    geometry: &Geometry,
    order: Order,
    moment: u32,
) -> Result<(), Failed>
    requires geometry { IsGeometry geometry.now }
    requires size { geometry.now.len4 ≤ size }
    ensures now { moment < 2 ^ 32 }
    ensures stages { (old : List ℕ)
        → MakesAll size old (made_bytes geometry.now order moment size old) (make_stages geometry.now order moment size old) result (D.outside host.old) (D.outside host.new) }
    ensures others { LeavesConsole (D.outside host.old) (D.outside host.new) }
    ensures cause { HasCause (D.outside host.old).dev_faults (D.outside host.new).dev_faults result }
{
    let volume = NewVolume {
        geometry: *geometry,
        order,
        moment,
    };
    clear_old(host)?;
    host.set_len(size)?;
    write_volume(host, &volume)
}

/// Makes an empty volume on a device, whatever the device held before. The device gets the length that is asked for.
///
/// The old areas are zeroed first, the active one last, and the new superblocks come last, so that wherever the power is cut the device gives no volume, or the old one, or the new one.
/// That has premises. The device is ready (`IsReadyToMake`): nothing is pending, the old areas don't disagree, and the old bytes, followed by bytes 0, have the magic and a right checksum nowhere else. And no half-written superblock matches its checksum by chance (`HasNoFalseSuperblock`).
/// It takes no memory.
pub fn make<D: Dev>(host: &mut D, options: &MakeOptions) -> Result<Made, MakeFault>
    // Numbers that are those of no volume are refused before anything is asked of the device, and no others are.
    ensures refused { (fault : GeomFault) → geometry_for options.now ≡ Err fault
        → (result ≡ Err (faults.Geom fault)) × (host.new ≡ host.old) }
    ensures geom { (fault : GeomFault) → result ≡ Err (faults.Geom fault)
        → geometry_for options.now ≡ Err fault }

    // What was made is what was asked for, byte for byte.
    ensures made { (g : Geometry) → geometry_for options.now ≡ Ok g → IfOk result (λ made. made ≡ made_of g) }
    ensures volume { (g : Geometry) → geometry_for options.now ≡ Ok g
        → OnOk result (IsTrue (D.outside host.new).tells
        → HasMade options.now g (bytes_of (D.outside host.old).history) (D.outside host.new).history) }

    // Wherever the power is cut.
    ensures any_moment { MakesAtEachMoment options.now (D.outside host.old) (D.outside host.new) }

    ensures lengths { IsTrue (D.outside host.new).tells
        → AsksOneLength options.now.size (D.outside host.old).history (D.outside host.new).history }
    ensures console { IsTrue (D.outside host.new).tells
        → KeepsQuiet (D.outside host.old).history (D.outside host.new).history }
    ensures others { LeavesConsole (D.outside host.old) (D.outside host.new) }
    ensures later { (D.outside host.old).dev_faults ≤ (D.outside host.new).dev_faults }
    ensures device { result ≡ Err faults.Device
        → Rose (D.outside host.old).dev_faults (D.outside host.new).dev_faults }
    ensures kept { (result ≡ Err faults.Device → ⊥)
        → (D.outside host.new).dev_faults ≡ (D.outside host.old).dev_faults }
{
    let geometry = match Geometry::new(options.size, options.blocksize, options.inodes) {
        Err(fault) => return Err(MakeFault::Geom(fault)),
        Ok(geometry) => geometry,
    };
    match replace(host, options.size, &geometry, options.order, options.moment) {
        Err(Failed) => Err(MakeFault::Device),
        Ok(()) => Ok(Made {
            blocks: geometry.num_blocks,
            user: geometry.user(),
            free: geometry.user() - 1,
            inodes: geometry.num_inodes,
        }),
    }
}
