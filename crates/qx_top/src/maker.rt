//! `mkqnx6fs IMAGE SIZE`: a new volume on an image.
ghost use Rattle.std.specs.Prelude.{◌≡◌, Ok, Some};
ghost use Rattle.qx_geom.specs.declared.geometry.Geometry.{Geometry};
ghost use Rattle.qx_top.specs.Run.{Does, HasCauses, IsSafe, made_by};
ghost use Rattle.qx_top.specs.Says.{HasStatusCause, code_of};
ghost use Rattle.qx_top.specs.Sizes.{volume_of};
ghost use Rattle.qx_top.specs.Volumes.{MakesVolume};
ghost use Rattle.qx_top.specs.Words.{volume};

use crate::Status;
use crate::lines::Line;
use crate::reports::say;
use crate::sizes::VolumeOptions;
use qx_geom::Geometry;
use qx_make::make;
use qx_outside::Host;

/// Asks the clock, attaches the image, and makes the volume on it.
fn make_on<H: Host>(host: &mut H, image: &str, options: &VolumeOptions) -> Status
    ensures does { (g : Geometry) → volume_of options.now ≡ Ok g
        → MakesVolume image.now options.now g (code_of result) (H.outside host.old) (H.outside host.new) }
    ensures cause { (g : Geometry) → volume_of options.now ≡ Ok g
        → HasStatusCause (code_of result) (H.outside host.old) (H.outside host.new) }
    ensures any_moment { (g : Geometry) → volume_of options.now ≡ Ok g
        → IsSafe (Some options.now) (H.outside host.old) (H.outside host.new) }
{
    let Ok(moment) = host.now() else {
        return Status::ConsoleFault;
    };
    if host.attach(image, true).is_err() {
        return say(host, Line::DeviceFault, Status::DeviceFault);
    }
    match make(host, &options.at(moment)) {
        Ok(made) => say(host, Line::Made(made), Status::Done),
        // The numbers passed before the clock was asked, so this is a device call that failed.
        Err(_) => say(host, Line::DeviceFault, Status::DeviceFault),
    }
}

/// Makes a volume of these numbers on the image, or says why there is none.
pub fn make_volume<H: Host>(host: &mut H, image: &str, options: &VolumeOptions) -> Status
    ensures does { Does (Some (volume image.now options.now)) (code_of result)
        (H.outside host.old) (H.outside host.new) }
    ensures causes { HasCauses (Some (volume image.now options.now)) (code_of result)
        (H.outside host.old) (H.outside host.new) }
    ensures any_moment { IsSafe (made_by (Some (volume image.now options.now)))
        (H.outside host.old) (H.outside host.new) }
{
    match Geometry::new(options.size, options.blocksize, options.inodes) {
        Err(fault) => say(host, Line::BadNumbers(fault), Status::BadWords),
        Ok(_) => make_on(host, image, options),
    }
}
