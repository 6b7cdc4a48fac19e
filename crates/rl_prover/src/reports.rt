// Reports in a lent slice, four entries each; what has no room is left out.
ghost use Rattle.std.specs.Prelude.{◌≡◌, ◌<◌, ◌≤◌, ◌+◌};
ghost use Rattle.rl_prover.specs.Reports.{put_four, put_violation, Reports};

use rl_bytes::put;
use rl_spec::Violation;

// The call that reports are about: its number and its span.
#[derive(Clone, Copy)]
pub struct Site {
    pub call: u32,
    pub span: u32,
}

fn put_four(reports: &mut [u32], at: usize, site: Site, kind: u32, number: u32)
    requires { at < 2251799813685248 }
    ensures { reports.new ≡ put_four reports.old at site.call site.span kind number }
{
    put(reports, at, site.call);
    put(reports, at + 1, site.span);
    put(reports, at + 2, kind);
    put(reports, at + 3, number);
}

fn put_violation(reports: &mut [u32], at: usize, site: Site, violation: Violation)
    requires { at < 2251799813685248 }
    ensures { reports.new ≡ put_violation reports.old at site.call site.span violation }
{
    match violation {
        Violation::Refinement(n) => put_four(reports, at, site, 0, n as u32),
        Violation::Requires(n) => put_four(reports, at, site, 1, n as u32),
    }
}

// Reports a violation where there is one. Answers the place of the next report.
pub fn report_if(
    reports: &mut [u32],
    at: usize,
    site: Site,
    failed: bool,
    violation: Violation,
) -> usize
    requires { at < 2251799813685248 }
    ensures reports { Reports reports.old at site.call site.span failed violation reports.new result }
    ensures upper_bound { result ≤ at + 4 }
{
    if failed {
        put_violation(reports, at, site, violation);
        return at + 4;
    }
    at
}
