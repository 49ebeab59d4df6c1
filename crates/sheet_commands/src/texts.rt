//! Texts that do not depend on the sheet.

/// The head up to the width.
pub(crate) const HEAD: &str =
    "<svg xmlns=\"http://www.w3.org/2000/svg\" font-family=\"monospace\" font-size=\"12\" width=\"";

/// The colours: for each number its last digit decides. No text depends on them alone.
pub(crate) const STYLE: &str = "<style>
text{fill:#222}.page{fill:#fff}.number{font-size:9px;text-anchor:middle}
.axis,.level{stroke:#222}.level{stroke-dasharray:6 4}.lid{stroke:#c0392b;stroke-width:3}
.foot{fill:#000;fill-opacity:.5}.met{fill:#9a9a9a}
.c1{fill:#0072b2}.c2{fill:#e69f00}.c3{fill:#009e73}.c4{fill:#cc79a7}.c5{fill:#d55e00}
.c6{fill:#56b4e9}.c7{fill:#f0e442}.c8{fill:#8a63d2}.c9{fill:#a6761d}.c0{fill:#8fce3c}
@media (prefers-color-scheme:dark){text{fill:#ddd}.page{fill:#1c1c1c}.axis,.level{stroke:#ddd}.lid{stroke:#ff7b6b}}
</style>
";

/// The line of the heading that says what the marks of columns are.
pub(crate) const MARKS: &str =
    "<text x=\"100\" y=\"60\">dark foot: guaranteed; lid: a limit of its own; number: what holds it back</text>\n";

pub(crate) const TITLE_END: &str = "</title>\n";

/// The beginning of a column that nothing holds back.
pub(crate) const MET: &str = "<rect class=\"met\"";

pub(crate) const NO_LEVEL: &str =
    "<text x=\"100\" y=\"44\">no limit holds back two or more</text>\n";

/// The line of the legend for wants that nothing holds back.
pub(crate) const NO_LIMIT: &str = "held back by no limit";

pub(crate) const TEXT_END: &str = "</text>\n";

pub(crate) const END: &str = "</svg>\n";
