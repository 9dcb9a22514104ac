//! The style of the pages: light and dark, narrow and wide. All texts have a contrast of at least 4.5 to 1 with their background,
//! placeholders too, and the borders of inputs one of at least 3 to 1.

/// What is before the style sheet of a page: the beginning of its head, and the end of its title.
pub(crate) const HEAD: &str =
    "<!doctype html>\n<html lang=\"en\">\n<head>\n<meta charset=\"utf-8\">\n\
<meta name=\"viewport\" content=\"width=device-width, initial-scale=1\">\n";

pub(crate) const TITLE_END: &str = "</title>\n<style>\n";

/// What follows the style sheet of a page, up to its body.
pub(crate) const HEAD_END: &str = "</style>\n</head>\n<body>\n";

/// The beginning of the header of a page about a route, up to its time.
pub(crate) const HEADER: &str =
    "<header><div class=\"top\">\n<h1><a href=\"/\">rpkirtrd</a></h1>\n<p class=\"dim\">";

/// The style sheet of the pages.
pub(crate) const STYLE: &str = "\
:root{color-scheme:light dark;--back:#fff;--text:#1b1f24;--dim:#57606a;--line:#d0d7de;--edge:#7d8590;\
--soft:#f6f8fa;--warn:#9a3412;--warnsoft:#fff1e8;--ok:#116329;--oksoft:#e6f6ea;--plot:#0b5cad}
@media (prefers-color-scheme:dark){:root{--back:#0f1318;--text:#e6e9ed;--dim:#a3adb8;--line:#30363d;\
--edge:#6e7681;--soft:#171c23;--warn:#ffb077;--warnsoft:#33200f;--ok:#7ee29a;--oksoft:#12301b;--plot:#6cb2ff}}
*{box-sizing:border-box}
body{margin:0;padding:1rem;background:var(--back);color:var(--text);font:14px/1.45 system-ui,sans-serif;font-variant-numeric:tabular-nums}
header,main{max-width:80rem;margin:0 auto}
.top{display:flex;flex-wrap:wrap;gap:.3rem 1rem;align-items:baseline;justify-content:space-between}
h1{font-size:1.3rem;margin:0;overflow-wrap:anywhere}
h1 small{font-weight:400;color:var(--dim);font-size:.9rem}
h2{font-size:1rem;margin:1.8rem 0 .5rem}
p{margin:.2rem 0}
a{color:var(--plot)}
.dim{color:var(--dim)}
.warn{color:var(--warn);font-weight:600}
.ok{color:var(--ok)}
.state{margin:.8rem 0 0;padding:.55rem .8rem;border-radius:6px;border-left:4px solid;font-weight:600;background:var(--soft)}
.state.ok{background:var(--oksoft)}
.state.bad{color:var(--warn);background:var(--warnsoft)}
dl{display:grid;grid-template-columns:repeat(5,minmax(0,1fr));gap:1px;margin:1rem 0 0;background:var(--line);border:1px solid var(--line);border-radius:6px;overflow:hidden}
dl>div{background:var(--back);padding:.6rem .8rem}
dt{color:var(--dim)}
dd{margin:0;font-size:1.35rem;font-weight:600}
dd small{display:block;font-size:.85rem;font-weight:400;color:var(--dim)}
form{display:flex;flex-wrap:wrap;gap:.5rem .8rem}
label{display:flex;gap:.4rem;align-items:center}
input::placeholder{color:var(--dim);opacity:1}
input,button{font:inherit;padding:.3rem .5rem;border:1px solid var(--edge);border-radius:4px;background:var(--back);color:inherit;min-width:0}
.scroll{overflow:auto;max-height:32rem;border:1px solid var(--line);border-radius:6px}
.pair .scroll{max-height:15.4rem}
.scroll:focus-visible{outline:2px solid var(--plot)}
table{border-collapse:collapse;width:100%}
th,td{padding:.35rem .7rem;text-align:left;vertical-align:top;white-space:nowrap;border-top:1px solid var(--line)}
thead th{position:sticky;top:0;border-top:0;background:var(--soft);color:var(--dim);font-weight:600}
tbody th{font-weight:400}
.n{text-align:right}
.long{white-space:normal;overflow-wrap:anywhere}
.name{white-space:normal;overflow-wrap:anywhere}
figure{margin:0}
.plot{display:grid;grid-template-columns:auto minmax(0,1fr);gap:0 .5rem}
.plot .y{display:flex;flex-direction:column;justify-content:space-between;text-align:right;color:var(--dim);height:14rem}
.plot .x{grid-column:2;display:flex;justify-content:space-between;color:var(--dim)}
svg{display:block;width:100%;height:14rem;border-left:1px solid var(--line);border-bottom:1px solid var(--line)}
svg.broken{border-bottom:2px dashed var(--dim)}
.grid{stroke:var(--line);stroke-width:1;vector-effect:non-scaling-stroke}
.area{fill:var(--plot);opacity:.12}
.line{fill:none;stroke:var(--plot);stroke-width:2;vector-effect:non-scaling-stroke}
figcaption{margin-top:.3rem}
@media (min-width:64rem){.pair{display:grid;grid-template-columns:1fr 1fr;gap:0 2rem}.pair>*{min-width:0}}
@media (max-width:60rem){dl{grid-template-columns:1fr 1fr}dl>div:last-child{grid-column:1/-1}}
@media (max-width:40rem){.wide{display:none}th,td{padding:.35rem .5rem}\
.warn{white-space:normal}.files tr{display:block;border-top:1px solid var(--line);padding:.4rem 0}.files thead{display:none}\
.files td,.files th{display:block;border:0;white-space:normal;text-align:left;padding:.05rem .7rem}\
.files td:nth-child(3)::before{content:'data made '}.files td:nth-child(4)::before{content:'loaded '}\
.files td:nth-child(5)::before{content:'expired entries: '}}
";
