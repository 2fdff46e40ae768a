//! `chkqnx6fs -s IMAGE`: one line about the superblocks of an image.
ghost use Rattle.std.specs.Prelude.{◌≡◌, ◌≢◌, ◌<◌, IfOk, IsTrue, Some};
ghost use Rattle.qx_outside.specs.Causes.{HasCause};
ghost use Rattle.qx_outside.specs.Calls.{Idles, LeavesConsole};
ghost use Rattle.qx_outside.specs.Trail.{bytes_of};
ghost use Rattle.qx_top.specs.Lines.{area_line, report_of, supers_report};
ghost use Rattle.qx_top.specs.Run.{Does, HasCauses};
ghost use Rattle.qx_top.specs.Says.{code_of};
ghost use Rattle.qx_top.specs.Words.{supers};

use crate::Status;
use crate::lines::Line;
use crate::reports::{Report, say};
use qx_geom::Which;
use qx_outside::{Dev, Failed, Host};
use qx_super::{Choice, SuperView, areas};

/// The line about a superblock and the area in which it stands.
fn line_of_area(which: Which, view: &SuperView<'_>) -> Line
    ensures { result ≡ area_line which view.now }
{
    Line::Area {
        which,
        serial: view.serial(),
        blocksize: view.blocksize(),
        blocks: view.num_blocks(),
        inodes: view.num_inodes(),
        order: view.order(),
    }
}

/// The report on the area that counts.
fn report_on(choice: Choice<'_>) -> Report
    ensures report { result ≡ report_of choice.entry }
    ensures of_image { (code_of result.status < 3) × (code_of result.status ≢ 1) }
{
    match choice {
        Choice::Active(which, view) => Report::new(line_of_area(which, &view), Status::Done),
        Choice::None => Report::refused(Line::NoVolume),
        Choice::Disagree => Report::refused(Line::Disagree),
    }
}

/// The report on the superblocks of the device.
fn report_on_device<D: Dev>(host: &mut D) -> Result<Report, Failed>
    ensures report { IfOk result (λ report. IsTrue (D.outside host.new).tells
        → report ≡ supers_report (bytes_of (D.outside host.new).history)) }
    ensures of_image { IfOk result (λ report. (code_of report.status < 3) × (code_of report.status ≢ 1)) }
    ensures step { Idles (D.outside host.old) (D.outside host.new) }
    ensures others { LeavesConsole (D.outside host.old) (D.outside host.new) }
    ensures cause { HasCause (D.outside host.old).dev_faults (D.outside host.new).dev_faults result }
{
    let len = host.len()?;
    let mut first = [0; 512];
    let mut second = [0; 512];
    let areas = areas(host, len, &mut first, &mut second)?;
    Ok(report_on(areas.choice()))
}

/// Attaches the image, and gives the line about its superblocks.
pub fn report_supers<H: Host>(host: &mut H, image: &str) -> Status
    ensures does { Does (Some (supers image.now)) (code_of result) (H.outside host.old) (H.outside host.new) }
    ensures causes { HasCauses (Some (supers image.now)) (code_of result)
        (H.outside host.old) (H.outside host.new) }
{
    if host.attach(image, false).is_err() {
        return say(host, Line::DeviceFault, Status::DeviceFault);
    }
    match report_on_device(host) {
        Err(Failed) => say(host, Line::DeviceFault, Status::DeviceFault),
        Ok(report) => say(host, report.line, report.status),
    }
}
