//! The rows of metrics, and their text: Prometheus' text format, version 0.0.4.

ghost use Rattle.std.specs.Prelude.{◌≡◌, ◌++◌, OnOk, map, string_bytes};
ghost use Rattle.std.specs.List.{flat_map};
ghost use Rattle.status_page.specs.Rows.{counter, gauge, head_text, label_text, labels_text, row_text, sample_text};
ghost use Rattle.status_page.specs.Shown.{label_of, labels_of, row_of};

use crate::escapes::push_escaped;
use std::alloc::AllocError;

/// A label of a sample. Its value may have any characters.
#[derive(Clone, Copy)]
pub(crate) struct Label<'a> {
    pub name: &'static str,
    pub value: &'a str,
}

/// The labels of a sample.
#[derive(Clone, Copy)]
pub(crate) enum Labels<'a> {
    /// None.
    None,
    /// One alone.
    One(Label<'a>),
    /// Three, in this order.
    Three(Label<'a>, Label<'a>, Label<'a>),
}

/// The lines before the samples of a metric: its name, its type and its meaning.
#[derive(Clone, Copy)]
pub(crate) struct Head {
    pub name: &'static str,
    pub kind: &'static str,
    pub help: &'static str,
}

/// A row of metrics.
#[derive(Clone, Copy)]
pub(crate) enum Row<'a> {
    /// The head of a metric that may have no sample.
    Head(Head),
    /// The first sample of a metric, after its head.
    First(Head, Labels<'a>, u64),
    /// A sample of the metric of this name, after others.
    Further(&'static str, Labels<'a>, u64),
}

impl<'a> Row<'a> {
    /// The only sample of a value that rises and falls.
    pub(crate) fn gauge(name: &'static str, help: &'static str, value: u64) -> Row<'a>
        ensures gauge { row_of result ≡ gauge name.now help.now value }
    {
        let kind = "gauge";
        Row::First(Head { name, kind, help }, Labels::None, value)
    }

    /// The only sample of a value that never falls.
    pub(crate) fn counter(name: &'static str, help: &'static str, value: u64) -> Row<'a>
        ensures counter { row_of result ≡ counter name.now help.now value }
    {
        let kind = "counter";
        Row::First(Head { name, kind, help }, Labels::None, value)
    }
}

/// Writes the head of a metric.
fn write_head(text: &mut String, head: Head) -> Result<(), AllocError>
    ensures head { OnOk result (string_bytes text.new ≡ string_bytes text.old
        ++ head_text head.name.now head.kind.now head.help.now) }
{
    let Head { name, kind, help } = head;
    write!(text, "# HELP {name} {help}\n# TYPE {name} {kind}\n")
}

fn write_label(text: &mut String, label: Label<'_>) -> Result<(), AllocError>
    ensures label { OnOk result
        (string_bytes text.new ≡ string_bytes text.old ++ label_text (label_of label.entry)) }
{
    let name = label.name;
    write!(text, "{name}=\"")?;
    push_escaped(text, label.value)?;
    text.push_str("\"")
}

/// Writes the labels of a sample, if there are any.
#[tactic(auto, unfolding(crate::specs::Rows::labels_text))]
fn write_labels(text: &mut String, labels: Labels<'_>) -> Result<(), AllocError>
    ensures labels { OnOk result
        (string_bytes text.new ≡ string_bytes text.old ++ labels_text (labels_of labels.entry)) }
{
    match labels {
        Labels::None => Ok(()),
        Labels::One(label) => {
            text.push_str("{")?;
            write_label(text, label)?;
            text.push_str("}")
        }
        Labels::Three(first, second, third) => {
            text.push_str("{")?;
            write_label(text, first)?;
            text.push_str(",")?;
            write_label(text, second)?;
            text.push_str(",")?;
            write_label(text, third)?;
            text.push_str("}")
        }
    }
}

fn write_sample(
    text: &mut String,
    name: &str,
    labels: Labels<'_>,
    value: u64,
) -> Result<(), AllocError>
    ensures sample { OnOk result (string_bytes text.new ≡ string_bytes text.old
        ++ sample_text name.now (labels_of labels.entry) value) }
{
    text.push_str(name)?;
    write_labels(text, labels)?;
    write!(text, " {value}\n")
}

/// Writes a row.
fn write_row(text: &mut String, row: Row<'_>) -> Result<(), AllocError>
    ensures row { OnOk result
        (string_bytes text.new ≡ string_bytes text.old ++ row_text (row_of row.entry)) }
{
    match row {
        Row::Head(head) => write_head(text, head),
        Row::First(head, labels, value) => {
            write_head(text, head)?;
            write_sample(text, head.name, labels, value)
        }
        Row::Further(name, labels, value) => write_sample(text, name, labels, value),
    }
}

/// Writes these rows, one after the other.
pub(crate) fn write_rows(text: &mut String, rows: &[Row<'_>]) -> Result<(), AllocError>
    ensures rows { OnOk result (string_bytes text.new
        ≡ string_bytes text.old ++ flat_map row_text (map row_of rows.now)) }
{
    for row in rows {
        write_row(text, *row)?;
    }
    Ok(())
}
