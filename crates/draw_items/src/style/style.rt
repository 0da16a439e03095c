use std::alloc::AllocError;

/// The colours: light or dark by the reader's setting.
const COLOURS: &str = "\
    :root{color-scheme:light dark;--bg:#fff;--ink:#1b1f24;--dim:#5b6470;--band:#f0f2f5;\
    --line:#b9c0c8;--p:#005a9c;--a:#a84300;--d:#00704f;--x:#b3123f;--r:#767e88;--t:#ffe9a8;\
    --b:#7a4fb5}\n\
    @media screen and (prefers-color-scheme:dark){:root{--bg:#14171b;--ink:#e8eaed;--dim:#a3acb8;\
    --band:#1e2329;--line:#4a525c;--p:#6cb8ff;--a:#ffac66;--d:#4fd6a8;--x:#ff7d9c;--r:#8d96a1;\
    --t:#4d3f10;--b:#c9a6ff}}\n";

/// What stands on the page.
const PAGE: &str = "\
    html{scroll-padding:140px 0}\n\
    body{margin:16px;background:var(--bg);color:var(--ink);font:13px/1.5 system-ui,sans-serif}\n\
    h1{font-size:18px;margin:0 0 8px}\n\
    p,details{margin:0 0 8px}\n\
    ol{margin:0}\n\
    code,svg{font-family:\"DejaVu Sans Mono\",Menlo,Consolas,\"Liberation Mono\",monospace}\n\
    code{font-size:12px}\n\
    a{color:inherit}\n\
    p span{white-space:nowrap;margin-right:14px}\n\
    p svg{display:inline;vertical-align:middle}\n\
    table{border-collapse:collapse}\n\
    th,td{padding:0;text-align:left;font-weight:normal}\n\
    thead th{position:sticky;top:0;background:var(--bg);box-shadow:0 1px var(--line)}\n\
    svg{display:block;font-size:10px;fill:var(--ink)}\n\
    text{white-space:pre}\n\
    path{fill:none}\n";

/// The classes of what is drawn.
const CLASSES: &str = "\
    .n{fill:var(--dim);text-anchor:end}\n\
    .c{fill:var(--dim)}\n\
    .h{font-weight:bold}\n\
    .k{fill:var(--band)}\n\
    .l{stroke:var(--line)}\n\
    .o{fill:var(--t)}\n\
    .u{stroke:var(--b);stroke-dasharray:1 3}\n\
    .g{stroke:var(--t);stroke-width:8}\n\
    .w{stroke:var(--dim);stroke-width:4;opacity:.35}\n\
    .f{opacity:.4}\n\
    .p{stroke:var(--p);fill:var(--p)}\n\
    .a{stroke:var(--a);fill:var(--a)}\n\
    .d{stroke:var(--d);fill:var(--d)}\n\
    .x{stroke:var(--x);fill:var(--x)}\n\
    .r{stroke:var(--r);fill:var(--r)}\n\
    .z{fill:var(--x);stroke:var(--x);stroke-width:8;opacity:.25}\n\
    p.x{font-weight:bold}\n";

/// What is drawn within a group, and the page in print.
const MARKS: &str = "\
    .b{stroke:var(--b);fill:var(--b)}\n\
    g path{stroke-width:2}\n\
    .a path{stroke-dasharray:5 3}\n\
    .r path{stroke-width:1;stroke-dasharray:1 3}\n\
    g .s{stroke-width:4}\n\
    .a .s{stroke-dasharray:2 2}\n\
    g .q{fill:inherit;stroke:none}\n\
    @media print{body{margin:0}table{width:100%}tr{break-inside:avoid}table svg{width:100%;\
    height:auto}thead th{position:static}*{print-color-adjust:exact;\
    -webkit-print-color-adjust:exact}}\n";

/// The key of signs: lines and bars.
const LINES: &str = "\
    <p><span><svg width=\"24\" height=\"16\" aria-hidden=\"true\"><g class=\"p\">\
    <path d=\"M2 8H22\"/></g></svg> posted write</span>\n\
    <span><svg width=\"24\" height=\"16\" aria-hidden=\"true\"><g class=\"a\">\
    <path d=\"M2 8H22\"/></g></svg> delayed request</span>\n\
    <span><svg width=\"24\" height=\"16\" aria-hidden=\"true\"><g class=\"d\">\
    <path d=\"M2 8H22\"/></g></svg> completion</span>\n\
    <span><svg width=\"24\" height=\"16\" aria-hidden=\"true\"><g class=\"r\">\
    <path d=\"M2 8H22\"/></g></svg> credit</span>\n\
    <span><svg width=\"24\" height=\"16\" aria-hidden=\"true\"><g class=\"p\">\
    <path class=\"s\" d=\"M12 1V15\"/></g></svg> stands and waits</span>\n";

/// Circles, crosses and brackets.
const SIGNS: &str = "\
    <span><svg width=\"24\" height=\"16\" aria-hidden=\"true\"><g class=\"p\">\
    <path d=\"M2 8H16\"/><circle cx=\"16\" cy=\"8\" r=\"5\"/></g></svg> lands</span>\n\
    <span><svg width=\"24\" height=\"16\" aria-hidden=\"true\"><g class=\"d\">\
    <path d=\"M8 8H18\"/><circle cx=\"18\" cy=\"8\" r=\"4\"/>\
    <path class=\"q\" d=\"M4 8l7 -4v8z\"/></g></svg> is read</span>\n\
    <span><svg width=\"24\" height=\"16\" aria-hidden=\"true\"><g class=\"x\">\
    <path d=\"M6 4l8 8m0 -8l-8 8\"/></g></svg> stall, abort, nobody, discard, drop</span>\n\
    <span><svg width=\"24\" height=\"16\" aria-hidden=\"true\"><g class=\"b\">\
    <path d=\"M4 3H14V13H8\"/><circle cx=\"4\" cy=\"3\" r=\"3\"/>\
    <path class=\"q\" d=\"M4 13l7 -4v8z\"/>\
    </g></svg> landed, then read by one who was told</span>\n\
    </p>\n";

fn print_colours(text: &mut String) -> Result<(), AllocError> {
    text.push_str(COLOURS)
}

fn print_page(text: &mut String) -> Result<(), AllocError> {
    text.push_str(PAGE)
}

fn print_classes(text: &mut String) -> Result<(), AllocError> {
    text.push_str(CLASSES)
}

fn print_marks(text: &mut String) -> Result<(), AllocError> {
    text.push_str(MARKS)
}

fn print_lines(text: &mut String) -> Result<(), AllocError> {
    text.push_str(LINES)
}

fn print_signs(text: &mut String) -> Result<(), AllocError> {
    text.push_str(SIGNS)
}

/// The style of a page, behind a text.
pub fn print_style(text: &mut String) -> Result<(), AllocError> {
    print_colours(text)?;
    print_page(text)?;
    print_classes(text)?;
    print_marks(text)
}

/// The key of signs, behind a text.
pub fn print_key(text: &mut String) -> Result<(), AllocError> {
    print_lines(text)?;
    print_signs(text)
}
