//! `chkqnx6fs IMAGE`: the verdict on an image.
ghost use Rattle.std.specs.Prelude.{◌≡◌, Some};
ghost use Rattle.qx_top.specs.Lines.{report_of_answer, report_of_verdict};
ghost use Rattle.qx_top.specs.Run.{Does, HasCauses};
ghost use Rattle.qx_top.specs.Says.{code_of};
ghost use Rattle.qx_top.specs.Words.{verdict};

use crate::Status;
use crate::lines::Line;
use crate::reports::{Report, say};
use qx_check::{CheckFault, Verdict, check};
use qx_outside::Host;
use std::alloc::Global;

/// The report on a verdict.
fn report_on_verdict(verdict: Verdict) -> Report
    ensures { result ≡ report_of_verdict verdict }
{
    match verdict {
        Verdict::Clean {
            which,
            serial,
            free_blocks,
            free_inodes,
        } => Report::new(
            Line::Clean {
                which,
                serial,
                free_blocks,
                free_inodes,
            },
            Status::Done,
        ),
        Verdict::Foreign(foreign) => Report::new(Line::Foreign(foreign), Status::Done),
        Verdict::Damaged(finding) => Report::new(Line::Damaged(finding), Status::BadImage),
    }
}

/// The report on what the checker answers.
fn report_on_answer(answer: Result<Verdict, CheckFault>) -> Report
    ensures { result ≡ report_of_answer answer }
{
    match answer {
        Ok(verdict) => report_on_verdict(verdict),
        Err(CheckFault::NoVolume) => Report::refused(Line::NoVolume),
        Err(CheckFault::Disagree) => Report::refused(Line::Disagree),
        Err(CheckFault::Device) => Report::new(Line::DeviceFault, Status::DeviceFault),
        Err(CheckFault::NoMemory) => Report::new(Line::NoMemory, Status::NoMemory),
    }
}

/// Attaches the image, and gives the line about the checker's verdict on it.
pub fn report_verdict<H: Host>(alloc: Global, host: &mut H, image: &str) -> Status
    ensures does { Does (Some (verdict image.now)) (code_of result)
        (H.outside host.old) (H.outside host.new) }
    ensures causes { HasCauses (Some (verdict image.now)) (code_of result)
        (H.outside host.old) (H.outside host.new) }
{
    if host.attach(image, false).is_err() {
        return say(host, Line::DeviceFault, Status::DeviceFault);
    }
    let report = report_on_answer(check(alloc, host));
    say(host, report.line, report.status)
}
