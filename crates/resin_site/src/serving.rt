//! One request.
ghost use Rattle.std.specs.Prelude.{◌≡◌, ◌≤◌, List, IfOk};
ghost use Rattle.resin_request.specs.Under.base.Numbering.{AreNumbered};
ghost use Rattle.resin_request.specs.Under.meaning.Programs.{KeeperCall};
ghost use Rattle.resin_site.specs.Framing.{IsFramed};
ghost use Rattle.resin_site.specs.Isolation.{IsIsolated};
ghost use Rattle.resin_site.specs.Keeping.{Passes};
ghost use Rattle.resin_site.specs.Laws.{IsLawful};
ghost use Rattle.resin_site.specs.Replies.{is_head};
ghost use Rattle.resin_site.specs.Serving.{Ends};
ghost use Rattle.resin_site.specs.Outside.{BlamesKeeper, IsServed, TellsCalls, outside};

use crate::answer::Answer;
use crate::outcome::{Outcome, answer_for};
use crate::site::Site;
use resin_request::path_of;
use resin_request::under::base::{Calls, Files, Tables};
use resin_request::under::http::{Method, Request, inputs};
use resin_request::under::machine::Machine;
use std::alloc::{AllocError, Global};

/// Serves one request; `number` is its number in its mail and its log. The runtime reads the file that the target asks for, runs `boot.php`, sets
/// the inputs behind their filters, makes what is kept of the request's session `$_SESSION`, runs the file where it is a script, or sends it, and
/// keeps what `$_SESSION` holds then.
///
/// A request has the session that its cookie `sid` names by 32 bytes `0` to `9` or `a` to `f`. Whether others know that name is for the site to see
/// to.
///
/// The end is `Served` with the status that the scripts set, which is 200 at first; `NotFound` with 404 where the path isn't open to requests or
/// names no file; `Uncaught` and `Fault` with 500; and `Keeper` with 503 exactly where the last keeper call failed. What was sent before an
/// end stays, and the end's text comes behind it. A HEAD request's response leaves the body out.
///
/// After want of memory the keepers and `calls` stand as at one of the moments of the request.
pub fn serve_one<F: Files, T: Tables>(
    alloc: Global,
    site: &mut Site,
    r: &Request,
    number: u64,
    files: &mut F,
    tables: &mut T,
    calls: &mut Calls,
) -> Result<Outcome, AllocError>
    requires { AreNumbered calls.old }
    ensures site { site.new ≡ site.old }
    ensures numbered { AreNumbered calls.new }
    ensures later { Passes calls.old.made calls.old.failed calls.new.made calls.new.failed }

    // Whatever numbers follow those of the calls that failed: where the keepers tell what they hold, the request was served as it means.
    ensures served { IsServed site.old number r.now (outside F.Files T.Tables files.old tables.old calls.old) result
        (outside F.Files T.Tables files.new tables.new calls.new) }

    // The access law.
    ensures lawful { IfOk result (λ o. IsLawful number o) }

    // A keeper's failure ends the request, and is blamed on a keeper whose count of faults rose.
    ensures ends { Ends result calls.new.made calls.old.failed calls.new.failed }
    ensures blames { BlamesKeeper (outside F.Files T.Tables files.old tables.old calls.old)
        (outside F.Files T.Tables files.new tables.new calls.new) }

    // No count of faults falls.
    ensures counted { (F.faults files.old ≤ F.faults files.new) × (T.faults tables.old ≤ T.faults tables.new) }

    // The frame: from every store that agrees on the names that the request's calls touch it means the same, where the same of its calls
    // fail and they have numbers, and it leaves every name that they don't change as it was.
    ensures framed { IsFramed site.old calls.old.made number r.now }

    // Isolation: the meaning of the request depends on its own session and on what all share, and leaves every other session as it was.
    ensures isolated { IsIsolated site.old calls.old.made number r.now }

    // The keepers' own answers are those of the request's calls.
    ensures told { (made : List KeeperCall) × TellsCalls (outside F.Files T.Tables files.old tables.old calls.old)
        (outside F.Files T.Tables files.new tables.new calls.new) made }
{
    let answer = answer_one(alloc, site, r, number, files, tables, calls)?;
    answer.into_outcome(alloc)
}

/// Answers one request as [`serve_one`] does, with its body held once: the outcome that it tells of is not made yet.
pub fn answer_one<F: Files, T: Tables>(
    alloc: Global,
    site: &mut Site,
    r: &Request,
    number: u64,
    files: &mut F,
    tables: &mut T,
    calls: &mut Calls,
) -> Result<Answer, AllocError>
    requires { AreNumbered calls.old }
    ensures site { site.new ≡ site.old }
    ensures numbered { AreNumbered calls.new }
    ensures later { Passes calls.old.made calls.old.failed calls.new.made calls.new.failed }

    // Whatever numbers follow those of the calls that failed: where the keepers tell what they hold, the request was served as it means.
    ensures served { IsServed site.old number r.now (outside F.Files T.Tables files.old tables.old calls.old) result
        (outside F.Files T.Tables files.new tables.new calls.new) }

    // The access law.
    ensures lawful { IfOk result (λ o. IsLawful number o) }

    // A keeper's failure ends the request, and is blamed on a keeper whose count of faults rose.
    ensures ends { Ends result calls.new.made calls.old.failed calls.new.failed }
    ensures blames { BlamesKeeper (outside F.Files T.Tables files.old tables.old calls.old)
        (outside F.Files T.Tables files.new tables.new calls.new) }

    // No count of faults falls.
    ensures counted { (F.faults files.old ≤ F.faults files.new) × (T.faults tables.old ≤ T.faults tables.new) }

    // The keepers' own answers are those of the request's calls.
    ensures told { (made : List KeeperCall) × TellsCalls (outside F.Files T.Tables files.old tables.old calls.old)
        (outside F.Files T.Tables files.new tables.new calls.new) made }
{
    let path = path_of(alloc, r.target.as_slice())?;
    let inputs = inputs(alloc, r)?;
    let mut m = Machine::begin(alloc, site.runtime(), site.fuel(), number)?;
    let finish = site.run(alloc, path.as_slice(), inputs, &mut m, files, tables, calls);
    answer_for(alloc, path.as_slice(), is_head(r.method), finish, m)
}

// Whether only the head of the response is wanted.
fn is_head(method: Method) -> bool
    ensures { result ≡ is_head method }
{
    match method {
        Method::Head => true,
        Method::Get | Method::Post => false,
    }
}
