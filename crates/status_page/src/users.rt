//! The rows of users. A label has a name of the configuration.

ghost use Rattle.std.specs.Prelude.{◌≡◌, ◌++◌, ◌/◌, OnOk, map};
ghost use Rattle.std.specs.List.{flat_map};
ghost use Rattle.status_page.specs.Metrics.{all_granted_rows, all_unmet_rows, granted_head, granted_rows, group_label, unmet_head, unmet_rows, user_labels, user_rows};
ghost use Rattle.status_page.specs.Shown.{labels_of, row_of};

use crate::rows::{Head, Label, Labels, Row};
use server_status::AccountStatus;
use std::alloc::AllocError;

/// The group of a user; empty for none.
fn group_label(account: &AccountStatus) -> &str
    ensures group { result.now ≡ group_label account.now }
{
    match &account.group {
        Some(group) => group.as_str(),
        None => "",
    }
}

/// The labels of a user in a direction.
fn user_labels<'a>(account: &'a AccountStatus, direction: &'static str) -> Labels<'a>
    ensures labels { labels_of result ≡ user_labels account.now direction.now }
{
    let user = Label {
        name: "user",
        value: account.user.as_str(),
    };
    let group = Label {
        name: "group",
        value: group_label(account),
    };
    let direction = Label {
        name: "direction",
        value: direction,
    };
    Labels::Three(user, group, direction)
}

/// Appends a value of a user in each direction.
#[tactic(auto, unfolding(crate::specs::Metrics::user_rows))]
fn push_user<'a>(
    rows: &mut Vec<Row<'a>>,
    metric: &'static str,
    account: &'a AccountStatus,
    down: u64,
    up: u64,
) -> Result<(), AllocError>
    ensures rows { OnOk result (map row_of rows.new.items ≡ map row_of rows.old.items
        ++ user_rows metric.now account.now down up) }
{
    rows.push(Row::Further(metric, user_labels(account, "down"), down))?;
    rows.push(Row::Further(metric, user_labels(account, "up"), up))?;
    Ok(())
}

fn push_granted_of<'a>(
    rows: &mut Vec<Row<'a>>,
    account: &'a AccountStatus,
) -> Result<(), AllocError>
    ensures rows { OnOk result
        (map row_of rows.new.items ≡ map row_of rows.old.items ++ granted_rows account.now) }
{
    let metric = "ftpd_granted_bytes_total";
    push_user(
        rows,
        metric,
        account,
        account.granted_down,
        account.granted_up,
    )
}

fn push_unmet_of<'a>(rows: &mut Vec<Row<'a>>, account: &'a AccountStatus) -> Result<(), AllocError>
    ensures rows { OnOk result
        (map row_of rows.new.items ≡ map row_of rows.old.items ++ unmet_rows account.now) }
{
    let down = account.unmet_down / 1_000_000;
    let up = account.unmet_up / 1_000_000;
    let metric = "ftpd_guarantee_unmet_seconds_total";
    push_user(rows, metric, account, down, up)
}

#[tactic(auto, unfolding(crate::specs::Metrics::granted_head))]
fn granted_head<'a>() -> Row<'a>
    ensures head { row_of result ≡ granted_head }
{
    Row::Head(Head {
        name: "ftpd_granted_bytes_total",
        kind: "counter",
        help: "Bytes granted to the transfers of users.",
    })
}

#[tactic(auto, unfolding(crate::specs::Metrics::unmet_head))]
fn unmet_head<'a>() -> Row<'a>
    ensures head { row_of result ≡ unmet_head }
{
    Row::Head(Head {
        name: "ftpd_guarantee_unmet_seconds_total",
        kind: "counter",
        help: "Seconds below nine tenths of a guarantee while a limit held the transfer back.",
    })
}

/// Appends the rows of what was granted to users.
pub(crate) fn push_granted<'a>(
    rows: &mut Vec<Row<'a>>,
    accounts: &'a [AccountStatus],
) -> Result<(), AllocError>
    ensures rows { OnOk result
        (map row_of rows.new.items ≡ map row_of rows.old.items ++ all_granted_rows accounts.now) }
{
    rows.push(granted_head())?;
    for account in accounts {
        push_granted_of(rows, account)?;
    }
    Ok(())
}

/// Appends the rows of how long guarantees of users were not met.
pub(crate) fn push_unmet<'a>(
    rows: &mut Vec<Row<'a>>,
    accounts: &'a [AccountStatus],
) -> Result<(), AllocError>
    ensures rows { OnOk result
        (map row_of rows.new.items ≡ map row_of rows.old.items ++ all_unmet_rows accounts.now) }
{
    rows.push(unmet_head())?;
    for account in accounts {
        push_unmet_of(rows, account)?;
    }
    Ok(())
}
