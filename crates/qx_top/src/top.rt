//! The run of a program's words over a host.
ghost use Rattle.std.specs.Prelude.{◌≡◌, [], IfSome, IsTrue, option_map};
ghost use Rattle.qx_top.specs.Run.{Does, HasCauses, IsComplete, IsSafe, made_by};
ghost use Rattle.qx_top.specs.Says.{code_of};
ghost use Rattle.qx_top.specs.Words.{asked_in, asked_of, texts_of};

use crate::Status;
use crate::checker::report_verdict;
use crate::lines::Line;
use crate::maker::make_volume;
use crate::reports::say;
use crate::supers::report_supers;
use crate::words::{Asked, asked_of};
use qx_outside::Host;
use std::alloc::Global;

/// The end of a run: its exit status, and the host that it was lent.
#[derive(Drop)]
pub struct Ended<H> {
    pub status: u8,
    pub host: H,
}

/// Does what is asked for.
fn obey<H: Host>(alloc: Global, asked: Option<Asked<'_>>, host: &mut H) -> Status
    ensures does { Does (option_map asked_in asked.entry) (code_of result)
        (H.outside host.old) (H.outside host.new) }
    ensures causes { HasCauses (option_map asked_in asked.entry) (code_of result)
        (H.outside host.old) (H.outside host.new) }
    ensures any_moment { IsSafe (made_by (option_map asked_in asked.entry))
        (H.outside host.old) (H.outside host.new) }
{
    match asked {
        None => say(host, Line::Usage, Status::BadWords),
        Some(Asked::Supers(image)) => report_supers(host, image),
        Some(Asked::Verdict(image)) => report_verdict(alloc, host, image),
        Some(Asked::Volume(image, options)) => make_volume(host, image, &options),
    }
}

/// Does what the words ask for, and gives its line to the console.
/// Accepted are `chkqnx6fs IMAGE`, `chkqnx6fs -s IMAGE` and `mkqnx6fs IMAGE SIZE`; all other words get the usage line. Words are UTF-8 texts without the program's own name.
/// Exit status 0: done; an image that is checked is clean or foreign. 1: the words aren't accepted, or their numbers are those of no volume. 2: no volume, two areas that disagree, or a damaged image. 3: a device call failed. 4: a console or clock call failed. 5: there was no memory for the check.
pub fn run<H: Host>(alloc: Global, words: &[String], host: H) -> Ended<H>
    requires trail { IsTrue (H.outside host).tells → (H.outside host).history.deeds ≡ [] }
    requires attached { IfSome (H.outside host).attached (λ paths. paths ≡ []) }

    ensures does { Does (asked_of (texts_of words.now)) result.status
        (H.outside host) (H.outside result.host) }

    // Each status has its cause, and without a fault the run ends as it should.
    ensures causes { HasCauses (asked_of (texts_of words.now)) result.status
        (H.outside host) (H.outside result.host) }
    ensures complete { IsComplete (asked_of (texts_of words.now)) result.status
        (H.outside host) (H.outside result.host) }

    // Wherever the power is cut.
    ensures any_moment { IsSafe (made_by (asked_of (texts_of words.now)))
        (H.outside host) (H.outside result.host) }
{
    let mut host = host;
    let status = obey(alloc, asked_of(words), &mut host);
    Ended {
        status: status.code(),
        host,
    }
}
