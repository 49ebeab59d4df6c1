//! The examples in the heads of these crates. `tools/examples` compares their lines.

use crate::shown::expect::holds;
use line_rates::{Limits, Name, ShareBy, Way};
use plan_report::{NoPlan, plan_json, plan_lines};
use rate_plan::{Transfer, plan_of};
use std::process::Abort;
use std::test::Fail;

/// A configuration of one user.
const SMALL: &str = "version = 2
[server]
root = \"memory\"
passive_first = 40000
passive_last = 40001
down_rate = 1000
[[user]]
name = \"ann\"
password = \"secret\"
home = \"/\"
";

#[test]
fn two_downloads_share(rt: HostRuntime) -> Result<(), Fail> {
    let alloc = rt.alloc();
    let limits = Limits::of(0, 1_001, 0, Vec::new(alloc), Vec::new(alloc))?;
    let (user, way) = (0, Way::Down);
    let shares = plan_of(alloc, &limits, 64, 16, &[Transfer { user, way }; 2])?; // two downloads
    match (shares.get(0), shares.get(1)) {
        (Some(first), Some(second)) => {
            holds(&rt, first.grant == 501 && second.grant == 500);
            holds(&rt, second.held == Some(Name::Direction(way)));
        }
        _ => holds(&rt, false),
    }
    Ok(())
}

fn plan_report(rt: &(impl Abort + AllocGlobal)) -> Result<(), NoPlan> {
    let text = plan_lines(rt.alloc(), SMALL.as_bytes(), ShareBy::Sessions, "ann=1")?; // a server and the user `ann`
    holds(rt, text.as_str().contains("held by"));
    let text = plan_json(rt.alloc(), SMALL.as_bytes(), ShareBy::Sessions, "ann=1")?; // the same for programs
    holds(rt, text.as_str().contains("\"held_by\":\"server down\""));
    Ok(())
}

#[test]
fn a_plan_of_a_configuration(rt: HostRuntime) {
    plan_report(&rt).expect(&rt, "a plan");
}
