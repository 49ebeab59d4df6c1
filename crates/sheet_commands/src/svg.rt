//! The text of a picture.

ghost use Rattle.std.specs.Prelude.{◌≡◌, ◌++◌, ◌≤◌, OnOk, IfOk, string_bytes};
ghost use Rattle.std.specs.List.{flat_map};
ghost use Rattle.sheet_commands.specs.Svg.{axis_text, bar_text, class_text, coloured, column_text, floor_text, foot_bar, foot_text, guaranteed, head_text, heading_text, height, height_of, held_by, held_text, label_text, legend_line, legend_text, level_line, level_text, lid_line, lid_text, named_text, number_text, own_limit_text, own_text, picture_text, rect_text, share_text, title_text, top_text, width_of, y_of};

use crate::column::{Column, Holder};
use crate::elements::{
    push_axis, push_coloured, push_foot_start, push_guaranteed, push_head, push_heading,
    push_held_by, push_label, push_legend_line, push_level_line, push_lid_line, push_own_limit,
    push_rect, push_share,
};
use crate::escape::push_escaped;
use crate::frame::{Frame, Level, Placed, frame_of, level_of};
use crate::texts::{END, MET, NO_LEVEL, NO_LIMIT, TEXT_END, TITLE_END};
use std::alloc::{AllocError, Allocator};

/// The height of octets: 300 for the largest grant.
fn height(octets: u64, largest: u64) -> u128
    requires some { 1 ≤ largest }
    ensures height { result ≡ height octets largest }
{
    octets as u128 * 300 / largest as u128
}

/// The upper edge of octets, above the axis at 400.
fn y_of(octets: u64, largest: u64) -> u128
    requires some { 1 ≤ largest }
    ensures edge { result ≡ y_of octets largest }
{
    400u128.saturating_sub(height(octets, largest))
}

fn width_of(frame: Frame) -> u128
    ensures width { result ≡ width_of frame }
{
    let columns = 124 + 24 * frame.columns as u128 + 12 * frame.numbers as u128;
    columns.max(720 + 8 * frame.longest as u128)
}

fn height_of(frame: Frame) -> u128
    ensures height { result ≡ height_of frame }
{
    470 + 8 * frame.longest as u128 + 20 * frame.numbers as u128
}

#[tactic(auto, unfolding(crate::specs::Svg::top_text))]
fn push_top<A: Allocator>(text: &mut String<A>, frame: Frame) -> Result<(), AllocError>
    ensures appended { OnOk result
        (string_bytes text.new ≡ string_bytes text.old ++ top_text frame) }
{
    let (width, height) = (width_of(frame), height_of(frame));
    push_head(text, width, height, frame.columns)?;
    push_heading(text, width, height, frame.columns)?;
    push_axis(text, width, frame.largest)
}

fn push_held<A: Allocator>(
    text: &mut String<A>,
    holder: Option<Holder<'_>>,
) -> Result<(), AllocError>
    ensures appended { OnOk result
        (string_bytes text.new ≡ string_bytes text.old ++ held_text holder.entry) }
{
    match holder {
        Some(holder) => push_held_by(text, holder.path),
        None => Ok(()),
    }
}

fn push_floor<A: Allocator>(text: &mut String<A>, floor: u64) -> Result<(), AllocError>
    ensures appended { OnOk result
        (string_bytes text.new ≡ string_bytes text.old ++ floor_text floor) }
{
    match floor {
        0 => Ok(()),
        _ => push_guaranteed(text, floor),
    }
}

fn push_own<A: Allocator>(text: &mut String<A>, lid: Option<u64>) -> Result<(), AllocError>
    ensures appended { OnOk result
        (string_bytes text.new ≡ string_bytes text.old ++ own_text lid) }
{
    match lid {
        Some(most) => push_own_limit(text, most),
        None => Ok(()),
    }
}

#[tactic(auto, unfolding(crate::specs::Svg::title_text))]
fn push_title<A: Allocator>(text: &mut String<A>, column: &Column<'_>) -> Result<(), AllocError>
    ensures appended { OnOk result
        (string_bytes text.new ≡ string_bytes text.old ++ title_text column.now) }
{
    push_share(text, column.path, column.grant, column.want)?;
    push_held(text, column.holder)?;
    push_floor(text, column.floor)?;
    push_own(text, column.lid)?;
    text.push_str(TITLE_END)
}

fn push_class<A: Allocator>(text: &mut String<A>, placed: &Placed<'_>) -> Result<(), AllocError>
    ensures appended { OnOk result
        (string_bytes text.new ≡ string_bytes text.old ++ class_text placed.now) }
{
    match placed.column.holder {
        Some(_) => push_coloured(text, placed.number % 10),
        None => text.push_str(MET),
    }
}

#[tactic(auto, unfolding(crate::specs::Svg::bar_text))]
fn push_bar<A: Allocator>(
    text: &mut String<A>,
    placed: &Placed<'_>,
    largest: u64,
) -> Result<(), AllocError>
    requires some { 1 ≤ largest }
    ensures appended { OnOk result
        (string_bytes text.new ≡ string_bytes text.old ++ bar_text largest placed.now) }
{
    let octets = placed.column.grant;
    push_class(text, placed)?;
    push_rect(
        text,
        placed.x,
        y_of(octets, largest),
        height(octets, largest),
    )
}

#[tactic(auto, unfolding(crate::specs::Svg::foot_bar))]
fn push_foot_bar<A: Allocator>(
    text: &mut String<A>,
    x: u128,
    floor: u64,
    largest: u64,
) -> Result<(), AllocError>
    requires some { 1 ≤ largest }
    ensures appended { OnOk result
        (string_bytes text.new ≡ string_bytes text.old ++ foot_bar x floor largest) }
{
    push_foot_start(text)?;
    push_rect(text, x, y_of(floor, largest), height(floor, largest))
}

#[tactic(auto, unfolding(crate::specs::Svg::foot_text))]
fn push_foot<A: Allocator>(
    text: &mut String<A>,
    placed: &Placed<'_>,
    largest: u64,
) -> Result<(), AllocError>
    requires some { 1 ≤ largest }
    ensures appended { OnOk result
        (string_bytes text.new ≡ string_bytes text.old ++ foot_text largest placed.now) }
{
    match placed.column.floor {
        0 => Ok(()),
        floor => push_foot_bar(text, placed.x, floor, largest),
    }
}

/// Appends the lid, unless it is more than a tenth above the largest grant.
#[tactic(auto, unfolding(crate::specs::Svg::lid_text))]
fn push_lid<A: Allocator>(
    text: &mut String<A>,
    placed: &Placed<'_>,
    largest: u64,
) -> Result<(), AllocError>
    requires some { 1 ≤ largest }
    ensures appended { OnOk result
        (string_bytes text.new ≡ string_bytes text.old ++ lid_text largest placed.now) }
{
    let Some(most) = placed.column.lid else {
        return Ok(());
    };
    if height(most, largest) > 330 {
        return Ok(());
    }
    push_lid_line(text, placed.x, y_of(most, largest))
}

#[tactic(auto, unfolding(crate::specs::Svg::column_text))]
fn push_column<A: Allocator>(
    text: &mut String<A>,
    placed: &Placed<'_>,
    largest: u64,
) -> Result<(), AllocError>
    requires some { 1 ≤ largest }
    ensures appended { OnOk result
        (string_bytes text.new ≡ string_bytes text.old ++ column_text largest placed.now) }
{
    push_title(text, &placed.column)?;
    push_bar(text, placed, largest)?;
    push_foot(text, placed, largest)?;
    push_lid(text, placed, largest)?;
    push_label(text, placed.x, placed.number, placed.column.path)
}

fn push_level<A: Allocator>(
    text: &mut String<A>,
    frame: Frame,
    level: Option<Level<'_>>,
) -> Result<(), AllocError>
    requires some { 1 ≤ frame.largest }
    ensures appended { OnOk result
        (string_bytes text.new ≡ string_bytes text.old ++ level_text frame level.entry) }
{
    match level {
        Some(level) => {
            let y = y_of(level.octets, frame.largest);
            push_level_line(text, width_of(frame), y, level.octets, level.path)
        }
        None => text.push_str(NO_LEVEL),
    }
}

fn push_named<A: Allocator>(
    text: &mut String<A>,
    holder: Option<Holder<'_>>,
) -> Result<(), AllocError>
    ensures appended { OnOk result
        (string_bytes text.new ≡ string_bytes text.old ++ named_text holder.entry) }
{
    match holder {
        Some(holder) => push_escaped(text, holder.path),
        None => text.push_str(NO_LIMIT),
    }
}

#[tactic(auto, unfolding(crate::specs::Svg::number_text))]
fn push_number<A: Allocator>(
    text: &mut String<A>,
    placed: &Placed<'_>,
    longest: usize,
) -> Result<(), AllocError>
    ensures appended { OnOk result
        (string_bytes text.new ≡ string_bytes text.old ++ number_text longest placed.now) }
{
    let y = 430 + 8 * longest as u128 + 20 * placed.number as u128;
    push_class(text, placed)?;
    push_legend_line(text, y, placed.number)?;
    push_named(text, placed.column.holder)?;
    text.push_str(TEXT_END)
}

/// Appends the line of the legend for the first column of a number.
fn push_legend<A: Allocator>(
    text: &mut String<A>,
    placed: &Placed<'_>,
    longest: usize,
) -> Result<(), AllocError>
    ensures appended { OnOk result
        (string_bytes text.new ≡ string_bytes text.old ++ legend_text longest placed.now) }
{
    if !placed.first {
        return Ok(());
    }
    push_number(text, placed, longest)
}

fn push_columns<A: Allocator>(
    text: &mut String<A>,
    placed: &[Placed<'_>],
    largest: u64,
) -> Result<(), AllocError>
    requires some { 1 ≤ largest }
    ensures appended { OnOk result (string_bytes text.new
        ≡ string_bytes text.old ++ flat_map (column_text largest) placed.now) }
{
    for place in placed {
        push_column(text, place, largest)?;
    }
    Ok(())
}

fn push_legends<A: Allocator>(
    text: &mut String<A>,
    placed: &[Placed<'_>],
    longest: usize,
) -> Result<(), AllocError>
    ensures appended { OnOk result (string_bytes text.new
        ≡ string_bytes text.old ++ flat_map (legend_text longest) placed.now) }
{
    for place in placed {
        push_legend(text, place, longest)?;
    }
    Ok(())
}

/// The picture of columns at their places.
pub(crate) fn picture_text<A: Allocator>(
    alloc: A,
    placed: &[Placed<'_>],
) -> Result<String<A>, AllocError>
    ensures picture { IfOk result (λ text. string_bytes text ≡ picture_text placed.now) }
{
    let frame = frame_of(placed);
    let mut text = String::new(alloc);
    push_top(&mut text, frame)?;
    push_columns(&mut text, placed, frame.largest)?;
    push_level(&mut text, frame, level_of(placed))?;
    push_legends(&mut text, placed, frame.longest)?;
    text.push_str(END)?;
    Ok(text)
}
