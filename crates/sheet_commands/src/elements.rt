//! The elements of a picture, each by its numbers and paths.

ghost use Rattle.std.specs.Prelude.{◌≡◌, ◌++◌, OnOk, string_bytes};
ghost use Rattle.sheet_commands.specs.Svg.{axis_text, coloured, foot_start, guaranteed, head_text, heading_text, held_by, label_text, legend_line, level_line, lid_line, own_limit_text, rect_text, share_text};

use crate::parts::{Part, push_parts};
use crate::texts::{HEAD, MARKS, STYLE};
use std::alloc::{AllocError, Allocator};

pub(crate) fn push_head<A: Allocator>(
    text: &mut String<A>,
    width: u128,
    height: u128,
    columns: usize,
) -> Result<(), AllocError>
    ensures appended { OnOk result
        (string_bytes text.new ≡ string_bytes text.old ++ head_text width height columns) }
{
    let parts = [
        Part::Text(HEAD),
        Part::Number(width),
        Part::Text("\" height=\""),
        Part::Number(height),
        Part::Text("\" viewBox=\"0 0 "),
        Part::Number(width),
        Part::Text(" "),
        Part::Number(height),
        Part::Text("\">\n<title>shares of "),
        Part::Number(columns as u128),
        Part::Text(" wants</title>\n"),
        Part::Text(STYLE),
    ];
    push_parts(text, &parts)
}

pub(crate) fn push_heading<A: Allocator>(
    text: &mut String<A>,
    width: u128,
    height: u128,
    columns: usize,
) -> Result<(), AllocError>
    ensures appended { OnOk result
        (string_bytes text.new ≡ string_bytes text.old ++ heading_text width height columns) }
{
    let parts = [
        Part::Text("<rect class=\"page\" width=\""),
        Part::Number(width),
        Part::Text("\" height=\""),
        Part::Number(height),
        Part::Text("\"/>\n<text x=\"100\" y=\"24\">shares of "),
        Part::Number(columns as u128),
        Part::Text(" wants, in octets</text>\n"),
        Part::Text(MARKS),
    ];
    push_parts(text, &parts)
}

pub(crate) fn push_axis<A: Allocator>(
    text: &mut String<A>,
    width: u128,
    largest: u64,
) -> Result<(), AllocError>
    ensures appended { OnOk result
        (string_bytes text.new ≡ string_bytes text.old ++ axis_text width largest) }
{
    let parts = [
        Part::Text("<text x=\"92\" y=\"104\" text-anchor=\"end\">"),
        Part::Number(largest as u128),
        Part::Text("</text>\n<path class=\"axis\" d=\"M96 400H"),
        Part::Number(width),
        Part::Text("\"/>\n"),
    ];
    push_parts(text, &parts)
}

pub(crate) fn push_share<A: Allocator>(
    text: &mut String<A>,
    path: &str,
    grant: u64,
    want: u64,
) -> Result<(), AllocError>
    ensures appended { OnOk result
        (string_bytes text.new ≡ string_bytes text.old ++ share_text path.now grant want) }
{
    let parts = [
        Part::Text("<g><title>"),
        Part::Path(path),
        Part::Text(": "),
        Part::Number(grant as u128),
        Part::Text(" of "),
        Part::Number(want as u128),
    ];
    push_parts(text, &parts)
}

pub(crate) fn push_held_by<A: Allocator>(text: &mut String<A>, path: &str) -> Result<(), AllocError>
    ensures appended { OnOk result
        (string_bytes text.new ≡ string_bytes text.old ++ held_by path.now) }
{
    let parts = [Part::Text(", held back by "), Part::Path(path)];
    push_parts(text, &parts)
}

pub(crate) fn push_guaranteed<A: Allocator>(
    text: &mut String<A>,
    floor: u64,
) -> Result<(), AllocError>
    ensures appended { OnOk result
        (string_bytes text.new ≡ string_bytes text.old ++ guaranteed floor) }
{
    let parts = [Part::Text(", guaranteed "), Part::Number(floor as u128)];
    push_parts(text, &parts)
}

pub(crate) fn push_own_limit<A: Allocator>(
    text: &mut String<A>,
    most: u64,
) -> Result<(), AllocError>
    ensures appended { OnOk result
        (string_bytes text.new ≡ string_bytes text.old ++ own_limit_text most) }
{
    let parts = [
        Part::Text(", limit of its own "),
        Part::Number(most as u128),
    ];
    push_parts(text, &parts)
}

pub(crate) fn push_coloured<A: Allocator>(
    text: &mut String<A>,
    digit: u64,
) -> Result<(), AllocError>
    ensures appended { OnOk result
        (string_bytes text.new ≡ string_bytes text.old ++ coloured digit) }
{
    let parts = [
        Part::Text("<rect class=\"c"),
        Part::Number(digit as u128),
        Part::Text("\""),
    ];
    push_parts(text, &parts)
}

pub(crate) fn push_foot_start<A: Allocator>(text: &mut String<A>) -> Result<(), AllocError>
    ensures appended { OnOk result
        (string_bytes text.new ≡ string_bytes text.old ++ foot_start) }
{
    push_parts(text, &[Part::Text("<rect class=\"foot\"")])
}

pub(crate) fn push_rect<A: Allocator>(
    text: &mut String<A>,
    x: u128,
    y: u128,
    height: u128,
) -> Result<(), AllocError>
    ensures appended { OnOk result
        (string_bytes text.new ≡ string_bytes text.old ++ rect_text x y height) }
{
    let parts = [
        Part::Text(" x=\""),
        Part::Number(x),
        Part::Text("\" y=\""),
        Part::Number(y),
        Part::Text("\" width=\"20\" height=\""),
        Part::Number(height),
        Part::Text("\"/>\n"),
    ];
    push_parts(text, &parts)
}

pub(crate) fn push_lid_line<A: Allocator>(
    text: &mut String<A>,
    x: u128,
    y: u128,
) -> Result<(), AllocError>
    ensures appended { OnOk result
        (string_bytes text.new ≡ string_bytes text.old ++ lid_line x y) }
{
    let parts = [
        Part::Text("<path class=\"lid\" d=\"M"),
        Part::Number(x),
        Part::Text(" "),
        Part::Number(y),
        Part::Text("m-2 0h24\"/>\n"),
    ];
    push_parts(text, &parts)
}

pub(crate) fn push_label<A: Allocator>(
    text: &mut String<A>,
    x: u128,
    number: u64,
    path: &str,
) -> Result<(), AllocError>
    ensures appended { OnOk result
        (string_bytes text.new ≡ string_bytes text.old ++ label_text x number path.now) }
{
    let parts = [
        Part::Text("<text class=\"number\" x=\""),
        Part::Number(x),
        Part::Text("\" y=\"414\" dx=\"10\">"),
        Part::Number(number as u128),
        Part::Text("</text>\n<text transform=\"translate("),
        Part::Number(x),
        Part::Text(" 424) rotate(90)\" dy=\"-6\">"),
        Part::Path(path),
        Part::Text("</text></g>\n"),
    ];
    push_parts(text, &parts)
}

pub(crate) fn push_level_line<A: Allocator>(
    text: &mut String<A>,
    width: u128,
    y: u128,
    octets: u64,
    path: &str,
) -> Result<(), AllocError>
    ensures appended { OnOk result
        (string_bytes text.new ≡ string_bytes text.old ++ level_line width y octets path.now) }
{
    let parts = [
        Part::Text("<path class=\"level\" d=\"M96 "),
        Part::Number(y),
        Part::Text("H"),
        Part::Number(width),
        Part::Text("\"/>\n<text x=\"100\" y=\"44\">dashed line: "),
        Part::Number(octets as u128),
        Part::Text(", the lowest level of a limit that holds back two or more: "),
        Part::Path(path),
        Part::Text("</text>\n"),
    ];
    push_parts(text, &parts)
}

pub(crate) fn push_legend_line<A: Allocator>(
    text: &mut String<A>,
    y: u128,
    number: u64,
) -> Result<(), AllocError>
    ensures appended { OnOk result
        (string_bytes text.new ≡ string_bytes text.old ++ legend_line y number) }
{
    let parts = [
        Part::Text(" x=\"100\" y=\""),
        Part::Number(y),
        Part::Text("\" width=\"12\" height=\"12\"/>\n"),
        Part::Text("<text x=\"120\" y=\""),
        Part::Number(y),
        Part::Text("\" dy=\"11\">"),
        Part::Number(number as u128),
        Part::Text(": "),
    ];
    push_parts(text, &parts)
}
